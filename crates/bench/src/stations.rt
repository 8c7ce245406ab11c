// The whole outstation in lent memory: one reading, by the points installed and by the events held.
ghost use Rattle.std.specs.Prelude.{◌≡◌};

use crate::sums::{digest, fold};
use analog_outputs::{ANALOG_OUTPUT_WORDS, ANALOG_OUTPUTS_MAX, AnalogOutputWords};
use event_store::{BufferStatus, EVENT_WORDS};
use events::{CAPACITY, Event, Shown};
use outstation::{Head, Measured, Reading, Took};
use point_store::{ANALOG_WORDS, BINARY_WORDS};
use points::{POINTS_MAX, Value};
use restart::{AnalogSetupWords, SetupWords};

// The most points of a kind and the most events, in the types that they are counted in here.
pub const POINTS: u64 = POINTS_MAX as u64;

const POINTS_END: u16 = POINTS_MAX as u16;

pub const EVENTS: u64 = CAPACITY as u64;

// The memory that a reading is lent.
#[derive(Drop)]
pub struct Memory {
    pub binaries: [u32; BINARY_WORDS],
    pub analogs: [u32; ANALOG_WORDS],
    pub held: [u64; EVENT_WORDS],
}

impl Memory {
    pub fn new() -> Self {
        Memory {
            binaries: [0; BINARY_WORDS],
            analogs: [0; ANALOG_WORDS],
            held: [0; EVENT_WORDS],
        }
    }

    // So many points of each kind, none read yet.
    fn restart(&mut self, n: usize) -> Head {
        let output = AnalogOutputWords {
            low: 0,
            high: 0,
            kind: 0,
        };
        let s = SetupWords {
            arm_time: 2000,
            confirm_time: 5000,
            own: 10,
            master: 1,
            outputs: 8,
            analog_output_count: 0,
            analog_outputs: [output; ANALOG_OUTPUTS_MAX],
        };
        let analog = AnalogSetupWords {
            limit: 100,
            gain: 0,
            offset: 0,
            class: 2,
            kind: 0,
            gate: 2,
        };
        let k = n.min(POINTS_MAX);
        let mut outputs = [0u32; ANALOG_OUTPUT_WORDS];
        let r = restart::restart(
            s,
            &[1; POINTS_MAX][..k],
            &[analog; POINTS_MAX][..k],
            &mut self.binaries,
            &mut self.analogs,
            &mut outputs,
        );
        r.head
    }

    fn read_state(&mut self, h: Head, time: u64, point: u16, state: bool) -> Took {
        let r = Reading {
            time,
            point,
            measured: Measured::State(state),
            flags: 1,
        };
        outstation::take_reading(h, &mut self.binaries, &mut self.analogs, &mut self.held, r)
    }

    // Holds n events.
    fn hold(&mut self, n: u64) -> usize {
        let mut t = BufferStatus {
            count: 0,
            overflow: false,
        };
        for i in 0..n.min(EVENTS) {
            t = event_store::push(&mut self.held, t, event_at(i));
        }
        t.count
    }

    // All points of each kind, the binaries read once, so that a changed state raises an event; n events are held.
    pub fn holding(&mut self, n: u64) -> Head {
        let mut h = self.restart(POINTS_MAX);
        for point in 0..POINTS_END {
            h = self.read_state(h, 0, point, false).head;
        }
        h.event_count = self.hold(n);
        h
    }
}

// The answer as the checksums have it.
fn accepted(refusal: u8) -> u64 {
    u64::from(refusal) + 1
}

// The next of n points, from the first again after the last.
fn following(point: u16, n: u16) -> u16 {
    if point < n && point + 1 < n {
        point + 1
    } else {
        0
    }
}

// Each reading changes its point's state and raises an event; the buffer is emptied when full.
pub fn outstation_reading(count: u64, n: u16) -> u64 {
    let mut memory = Memory::new();
    let mut h = memory.restart(usize::from(n));
    let mut point: u16 = 0;
    let mut state = true;
    let mut sum: u64 = 1;
    for time in 0..count {
        if (count - time) % EVENTS == 0 {
            h.event_count = 0;
        }
        let t = memory.read_state(h, time, point, state);
        h = t.head;
        sum = fold(sum, accepted(t.refusal).wrapping_add(h.clock));
        point = following(point, n);
        if point == 0 {
            state = !state;
        }
    }
    digest(sum, &memory.held)
}

// ---- an outstation that holds events

fn shown_of(i: u64) -> Shown {
    match i % 4 {
        0 => Shown::State(i % 8 == 0),
        1 => Shown::Analog(Value::Int32((i % 4096) as i32)),
        2 => Shown::Analog(Value::Int16((i % 4096) as i16)),
        _ => Shown::Analog(Value::Float32(2.25)),
    }
}

// The kinds and the classes take turns.
fn event_at(i: u64) -> Event
    ensures { result.time ≡ i }
{
    Event {
        time: i,
        shown: shown_of(i),
        point: (i % POINTS) as u16,
        flags: 1,
        class: (i % 3 + 1) as u8,
    }
}

// Each reading is taken with the same head, which holds events, and raises one more; then its point is set back. The binaries are all alike.
pub fn held_reading(count: u64, n: u64) -> u64 {
    let mut memory = Memory::new();
    let full = memory.holding(n);
    let word = memory.binaries[0];
    let mut sum: u64 = 1;
    for done in 0..count {
        let left = count - done;
        let point = (left % POINTS) as u16;
        let t = memory.read_state(full, left, point, true);
        let result = t.head.clock.wrapping_add(t.head.event_count as u64);
        sum = fold(sum, accepted(t.refusal).wrapping_add(result));
        memory.binaries[usize::from(point)] = word;
    }
    memory.read_state(full, 1, 0, true);
    digest(sum, &memory.held)
}
