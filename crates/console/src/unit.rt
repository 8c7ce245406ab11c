// The outstation's head and the memory that it is lent, in one place.
use analog_outputs::ANALOG_OUTPUT_WORDS;
use application::FRAGMENT_MAX;
use control::{ANSWER_MAX, ECHO_MAX};
use event_store::EVENT_WORDS;
use fragments::FragmentResult;
use outstation::{Head, Reading, ReadingWords};
use point_calls::setup::Setup;
use point_store::{ANALOG_WORDS, BINARY_WORDS};
use points::POINTS_MAX;
use tables::TableTook;

#[derive(Clone, Copy)]
pub struct Unit {
    // None before the first setup.
    pub head: Option<Head>,
    pub held: [u64; EVENT_WORDS],
    binaries: [u32; BINARY_WORDS],
    analogs: [u32; ANALOG_WORDS],
    request: [u8; FRAGMENT_MAX],
    answer: [u8; ANSWER_MAX],
    objects: [u8; ECHO_MAX],
    outputs: [u32; ANALOG_OUTPUT_WORDS],
}

impl Unit {
    pub fn new() -> Self {
        Unit {
            head: None,
            held: [0; EVENT_WORDS],
            binaries: [0; BINARY_WORDS],
            analogs: [0; ANALOG_WORDS],
            request: [0; FRAGMENT_MAX],
            answer: [0; ANSWER_MAX],
            objects: [0; ECHO_MAX],
            outputs: [0; ANALOG_OUTPUT_WORDS],
        }
    }

    // Restarts with a setup, and says whether there is an outstation. Counts past the arrays are refused, as all that breaks a limit is.
    pub fn restart(&mut self, s: &Setup) -> bool {
        self.head = None;
        if POINTS_MAX < s.binary_count || POINTS_MAX < s.analog_count {
            return false;
        }
        let r = restart::restart(
            s.setup,
            &s.classes[..s.binary_count],
            &s.analogs[..s.analog_count],
            &mut self.binaries,
            &mut self.analogs,
            &mut self.outputs,
        );
        if r.refusal != 0 {
            return false;
        }
        self.head = Some(r.head);
        true
    }

    // One reading; the refusal's number, 0 where it was taken.
    pub fn take_reading(&mut self, head: Head, reading: Reading) -> u8 {
        let r = outstation::take_reading(
            head,
            &mut self.binaries,
            &mut self.analogs,
            &mut self.held,
            reading,
        );
        self.head = Some(r.head);
        r.refusal
    }

    pub fn take_table(&mut self, head: Head, readings: &[ReadingWords]) -> TableTook {
        let r = tables::take_table(
            head,
            &mut self.binaries,
            &mut self.analogs,
            &mut self.held,
            readings,
        );
        self.head = Some(r.head);
        r
    }

    pub fn fragment(&mut self, head: Head, time: u64, f: &[u8], out: &mut [u8]) -> FragmentResult {
        let r = fragments::fragment(
            head,
            &self.binaries,
            &self.analogs,
            &mut self.held,
            &mut self.request,
            &mut self.answer,
            &mut self.objects,
            &self.outputs,
            time,
            f,
            out,
        );
        self.head = Some(r.head);
        r
    }
}
