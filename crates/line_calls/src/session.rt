// What is kept of the line from call to call.
use crate::answers::{NotMade, ROOM_MAX};
use frame::FRAME_MAX;
use link::{LineRecord, Station};
use transport::{Assembly, Sender};

#[derive(Clone, Copy)]
pub struct LineSession {
    // The station's addresses, where there is an outstation.
    pub station: Option<Station>,
    pub record: LineRecord,
    pub assembly: Assembly,
    pub sender: Sender,
    // How many bytes the receiver keeps, and the memory that they are in.
    pub kept: usize,
    pub memory: [u8; FRAME_MAX],
    // Segments are put together here.
    pub gathered: [u8; ROOM_MAX],
}

impl LineSession {
    // Before the first call: no outstation, and a line record of zeros.
    pub fn new() -> Self {
        LineSession {
            station: None,
            record: LineRecord {
                accepted: 0,
                short: 0,
                start: 0,
                header_check: 0,
                length: 0,
                block_check: 0,
                not_taken: 0,
                blocks: [0; link::BLOCK_COUNTS],
            },
            assembly: transport::nothing_begun(),
            sender: transport::nothing_sent(),
            kept: 0,
            memory: [0; FRAME_MAX],
            gathered: [0; ROOM_MAX],
        }
    }

    // There is an outstation; nothing is heard, nothing sent, and the receiver is empty.
    pub fn begin(&mut self, station: Station) {
        self.station = Some(station);
        self.assembly = transport::nothing_begun();
        self.sender = transport::nothing_sent();
        self.kept = 0;
    }

    // There is none; the receiver is empty.
    pub fn end(&mut self) {
        self.station = None;
        self.kept = 0;
    }

    // The addresses, for a call that needs an outstation.
    pub fn need_station(&self) -> Result<Station, NotMade> {
        self.station.ok_or(NotMade::NoOutstation)
    }
}
