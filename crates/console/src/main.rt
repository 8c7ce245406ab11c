// Reads call scripts from standard input and answers each call with one line on standard output.
#![tactic(auto)]

mod calls;
mod exchange;
mod names;
mod script;
mod unit;

use line_calls::answers;
use line_calls::answers::{Answers, BYTES_MAX, NotMade, ROOM_MAX};
use line_calls::session::LineSession;
use names::Command;
use point_calls::setup::Setup;
use script::{LINE_MAX, Script};
use text::Words;
use unit::Unit;

// Room for the longest answer.
const TOLD_MAX: usize = 20000;

// What is kept from call to call; of `bytes` and `lent`, what one call is given and lent, nothing is.
#[derive(Drop)]
struct Console {
    line: LineSession,
    unit: Unit,
    setup: Option<Setup>,
    bytes: [u8; BYTES_MAX],
    lent: [u8; ROOM_MAX],
    out: Answers,
}

impl Console {
    fn new() -> Self {
        Console {
            line: LineSession::new(),
            unit: Unit::new(),
            setup: None,
            bytes: [0; BYTES_MAX],
            lent: [0; ROOM_MAX],
            out: Answers::new(),
        }
    }

    // Writes the answers out. What cannot be written is lost.
    fn flush(&mut self, rt: &impl Print) {
        let _ = rt.write_all(self.out.written());
        self.out.len = 0;
    }

    // Writes the answers out where there is little room left.
    fn make_room(&mut self, rt: &impl Print) {
        if self.out.room() < TOLD_MAX {
            self.flush(rt);
        }
    }

    // A line that is longer than one may be.
    fn refuse_line(&mut self, rt: &impl Print) {
        self.make_room(rt);
        answers::answer(&mut self.out, NotMade::WrongWord.text());
    }

    fn call(&mut self, line: &[u8]) -> Result<(), NotMade> {
        let mut words = Words::new(line);
        let name = words.word(b' ')?;
        let command = names::command_of(name).ok_or(NotMade::WrongWord)?;
        match command {
            Command::Setup => self.setup(words),
            Command::Restart => self.restart(words),
            Command::Reading(kind) => self.reading(words, kind),
            Command::Table => self.table(words),
            Command::Frag => self.frag(words),
            Command::Held => self.held(words),
            Command::Line(call) => self.line.call(
                call,
                words,
                &mut self.bytes,
                &mut self.lent,
                &mut self.out,
            ),
        }
    }

    // Answers a line without its end. An empty one and a comment get no answer.
    fn answer(&mut self, rt: &impl Print, line: &[u8]) {
        if line.is_empty() {
            return;
        }
        if LINE_MAX < line.len() {
            return self.refuse_line(rt);
        }
        if line[0] == b'#' {
            return;
        }
        self.make_room(rt);
        if let Err(why) = self.call(line) {
            answers::answer(&mut self.out, why.text());
        }
    }
}

// A proved loop has to end, and nothing says that the input does: the lines are counted up to a number that no run reaches.
fn serve(rt: &(impl Input + Print), script: &mut Script, console: &mut Console) {
    for _ in 0..u64::MAX {
        if let Some(line) = script.next_line() {
            console.answer(rt, line);
            continue;
        }
        if script.make_room() {
            console.refuse_line(rt);
        }
        console.flush(rt);
        if !script.fetch(rt) {
            console.answer(rt, script.last_line());
            return console.flush(rt);
        }
    }
}

fn main(rt: HostRuntime) {
    let mut script = Script::new();
    let mut console = Console::new();
    serve(&rt, &mut script, &mut console);
}
