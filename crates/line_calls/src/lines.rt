// The calls that need no outstation, or only its addresses and segments.
use crate::answers::{Answers, NotMade};
use crate::session::LineSession;
use crate::{answers, frames};
use text::Words;

// The calls with LEN HEX.
#[derive(Clone, Copy)]
pub enum LentCall {
    Station,
    Seg,
    Send,
    FrameRead,
    Piece,
}

#[derive(Clone, Copy)]
pub enum LineCall {
    Lent(LentCall),
    Record,
    FrameWrite,
    Crc,
}

// The call of this name.
pub fn line_call_of(name: &[u8]) -> Option<LineCall> {
    match name {
        b"station" => Some(LineCall::Lent(LentCall::Station)),
        b"record" => Some(LineCall::Record),
        b"seg" => Some(LineCall::Lent(LentCall::Seg)),
        b"send" => Some(LineCall::Lent(LentCall::Send)),
        b"frame-write" => Some(LineCall::FrameWrite),
        b"frame-read" => Some(LineCall::Lent(LentCall::FrameRead)),
        b"piece" => Some(LineCall::Lent(LentCall::Piece)),
        b"crc" => Some(LineCall::Crc),
        _ => None,
    }
}

impl LineSession {
    // A call with LEN HEX.
    fn lent_call(
        &mut self,
        call: LentCall,
        mut words: Words,
        bytes: &mut [u8],
        lent: &mut [u8],
        out: &mut Answers,
    ) -> Result<(), NotMade> {
        let (size, n) = answers::lending(&mut words, bytes)?;
        words.finish()?;
        let given = &bytes[..n];
        let room = size.min(lent.len());
        let lent = &mut lent[..room];
        match call {
            LentCall::FrameRead => frames::frame_read(given, lent, out),
            LentCall::Piece => self.piece(given, lent, out),
            LentCall::Station => self.station(self.need_station()?, given, lent, out),
            LentCall::Seg => {
                self.need_station()?;
                self.seg(given, lent, out)
            }
            LentCall::Send => {
                self.need_station()?;
                self.send(given, lent, out)
            }
        }
        Ok(())
    }

    // One of these calls; `bytes` and `lent` are for this call alone.
    pub fn call(
        &mut self,
        call: LineCall,
        words: Words,
        bytes: &mut [u8],
        lent: &mut [u8],
        out: &mut Answers,
    ) -> Result<(), NotMade> {
        match call {
            LineCall::Lent(call) => self.lent_call(call, words, bytes, lent, out),
            LineCall::Record => self.set_record(words, out),
            LineCall::FrameWrite => frames::frame_write(words, bytes, lent, out),
            LineCall::Crc => frames::crc(words, bytes, out),
        }
    }
}
