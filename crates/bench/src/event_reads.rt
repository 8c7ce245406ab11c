// A READ of classes 1, 2 and 3, and the CONFIRM of its response.
use crate::stations::Memory;
use crate::sums::{byte_at, digest, fold, fold_all};
use analog_outputs::ANALOG_OUTPUT_WORDS;
use application::FRAGMENT_MAX;
use control::{ANSWER_MAX, ECHO_MAX};
use fragments::{FragmentAnswer, FragmentRefusal, FragmentResult};
use outstation::Head;

// The checksum with the size and one byte of a response, or with what else a fragment came to.
fn fold_answer(sum: u64, answer: Result<FragmentAnswer, FragmentRefusal>, out: &[u8]) -> u64 {
    match answer {
        Ok(FragmentAnswer::Answer(n)) => {
            let i = (sum % 2048) as usize;
            fold(sum, (n as u64).wrapping_add(byte_at(out, i)))
        }
        Ok(FragmentAnswer::Confirmed) => fold(sum, 1),
        Ok(FragmentAnswer::Silent) => fold(sum, 2),
        Err(why) => fold(sum, number_of(why)),
    }
}

// What a refusal adds to the checksum, as in the program of ordinary Rust.
fn number_of(why: FragmentRefusal) -> u64 {
    match why {
        FragmentRefusal::Time => 3,
        FragmentRefusal::Malformed => 4,
        FragmentRefusal::NotConfirmed => 5,
        FragmentRefusal::OutputTooSmall => 6,
    }
}

// The memory that a fragment is lent.
#[derive(Drop)]
struct Exchange {
    memory: Memory,
    request: [u8; FRAGMENT_MAX],
    answer: [u8; ANSWER_MAX],
    objects: [u8; ECHO_MAX],
    outputs: [u32; ANALOG_OUTPUT_WORDS],
    out: [u8; FRAGMENT_MAX],
}

impl Exchange {
    fn fragment(&mut self, h: Head, time: u64, f: &[u8]) -> FragmentResult {
        fragments::fragment(
            h,
            &self.memory.binaries,
            &self.memory.analogs,
            &mut self.memory.held,
            &mut self.request,
            &mut self.answer,
            &mut self.objects,
            &self.outputs,
            time,
            f,
            &mut self.out,
        )
    }

    // The checksum after a READ and its CONFIRM with this sequence number.
    fn exchange(&mut self, sum: u64, full: Head, time: u64, sequence: u64) -> u64 {
        // First and only fragment.
        let control = (192 + sequence % 16) as u8;
        let r = self.fragment(full, time, &[control, 1, 60, 2, 6, 60, 3, 6, 60, 4, 6]);
        let asked = fold_answer(sum, r.answer, &self.out);
        let d = self.fragment(r.head, time, &[control, 0]);
        fold(
            fold_answer(asked, d.answer, &self.out),
            d.head.event_count as u64,
        )
    }
}

// Each exchange begins with the same head and the same n events; only time and sequence differ.
pub fn event_read(count: u64, n: u64) -> u64 {
    let mut x = Exchange {
        memory: Memory::new(),
        request: [0; FRAGMENT_MAX],
        answer: [0; ANSWER_MAX],
        objects: [0; ECHO_MAX],
        outputs: [0; ANALOG_OUTPUT_WORDS],
        out: [0; FRAGMENT_MAX],
    };
    let full = x.memory.holding(n);
    let events = x.memory.held;
    let words = 2 * events::filled(full.event_count);
    let mut sum: u64 = 1;
    for done in 0..count {
        let left = count - done;
        sum = x.exchange(sum, full, 1000 + left % 1000, left);
        for (slot, &word) in x.memory.held.iter_mut().zip(&events).take(words) {
            *slot = word;
        }
    }
    x.exchange(sum, full, 1000, count.min(1));
    digest(fold_all(sum, &x.out), &x.memory.held)
}
