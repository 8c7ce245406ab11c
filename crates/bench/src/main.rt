// Does a named piece of work so many times on fixed input: a line `NAME COUNT`, or `NAME COUNT SIZE` with so many points or held
// events, is answered with a checksum of the results.
#![tactic(auto)]

ghost use Rattle.std.specs.Prelude.{◌≤◌, length};

mod class_zero;
mod event_reads;
mod frames;
mod parts;
mod stations;
mod sums;

use std::io::Read;
use text::{Words, WrongWord};

pub const COUNT_MAX: u64 = 1000000000000;

// The longest text.
const TEXT_MAX: usize = 4096;

// The work that a line names.
#[derive(Clone, Copy)]
enum Work {
    Nothing,
    FrameWrite,
    FrameRead,
    Reading,
    ClassZero,
    OutstationReading,
    HeldReading,
    EventRead,
}

fn nothing(count: u64) -> u64 {
    let mut sum: u64 = 1;
    for done in 0..count {
        sum = sums::fold(sum, count - done);
    }
    sum
}

impl Work {
    fn named(name: &[u8]) -> Option<Work> {
        match name {
            b"nothing" => Some(Work::Nothing),
            b"frame-write" => Some(Work::FrameWrite),
            b"frame-read" => Some(Work::FrameRead),
            b"reading" => Some(Work::Reading),
            b"class-0" => Some(Work::ClassZero),
            b"outstation-reading" => Some(Work::OutstationReading),
            b"held-reading" => Some(Work::HeldReading),
            b"event-read" => Some(Work::EventRead),
            _ => None,
        }
    }

    // The size that the work may be asked for: up to so many points or events, 0 where it has none.
    fn extent(self) -> u64 {
        match self {
            Work::ClassZero | Work::OutstationReading => stations::POINTS,
            Work::HeldReading => stations::EVENTS - 1,
            Work::EventRead => stations::EVENTS,
            _ => 0,
        }
    }

    // A size is at most the work's extent; the remainder only shows that it fits its type.
    fn run(self, count: u64, size: u64) -> u64 {
        match self {
            Work::Nothing => nothing(count),
            Work::FrameWrite => frames::frame_write(count),
            Work::FrameRead => frames::frame_read(count),
            Work::Reading => parts::reading(count),
            Work::ClassZero => class_zero::class_zero(count, size as usize),
            Work::OutstationReading => stations::outstation_reading(count, (size % 256) as u16),
            Work::HeldReading => stations::held_reading(count, size),
            Work::EventRead => event_reads::event_read(count, size),
        }
    }
}

// The checksum that a line asks for: NAME COUNT, or NAME COUNT SIZE; with no size it is the full one.
fn sum_of(line: &[u8]) -> Result<u64, WrongWord> {
    let mut words = Words::new(line);
    let work = Work::named(words.word(b' ')?).ok_or(WrongWord)?;
    let count = words.number(b' ', COUNT_MAX)?;
    let full = work.extent();
    let size = if words.is_finished() {
        full
    } else {
        words.number(b' ', full)?
    };
    words.finish()?;
    Ok(work.run(count, size))
}

// What cannot be written is lost.
fn answer(rt: &impl Print, line: &[u8]) {
    let _ = match sum_of(line) {
        Ok(sum) => rt.println(sum),
        Err(WrongWord) => rt.println("unknown"),
    };
}

// Reads until the text is full, the input ends or a read fails, and answers how many bytes were read. How often is not known before.
fn read_full(rt: &impl Input, t: &mut [u8]) -> usize
    ensures { result ≤ length t.new }
{
    let mut reader = rt.reader();
    let mut done: usize = 0;
    while done < t.len() {
        let n = match reader.read(&mut t[done..]) {
            Ok(n) => n,
            Err(_) => 0,
        };
        if n == 0 {
            return done;
        }
        done += n;
    }
    done
}

fn main(rt: HostRuntime) {
    let mut t = [0u8; TEXT_MAX];
    let n = read_full(&rt, &mut t);
    for line in t[..n].split_inclusive(|&b| b == b'\n') {
        answer(&rt, line.strip_suffix(b"\n").unwrap_or(line));
    }
}
