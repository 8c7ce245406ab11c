// The text of scripts, as it is read, and its lines.
ghost use Rattle.std.specs.Prelude.{◌≤◌, length};

use std::io::Read;

// The longest line, and room for it beside what is read next.
pub const LINE_MAX: usize = 65536;

const TEXT_MAX: usize = 131072;

// The bytes from `from` up to `filled` were read and are not answered yet. None of them before `searched` ends a line: a long one may come a byte
// a read, and is searched once.
#[derive(Drop)]
pub struct Script {
    from: usize,
    searched: usize,
    filled: usize,
    // The rest of a line that was too long is skipped.
    skipping: bool,
    bytes: [u8; TEXT_MAX],
    ghost begins: { from ≤ searched },
    ghost goes_on: { searched ≤ filled },
    ghost ends: { filled ≤ length bytes },
}

impl Script {
    pub fn new() -> Self {
        Script {
            from: 0,
            searched: 0,
            filled: 0,
            skipping: false,
            bytes: [0; TEXT_MAX],
        }
    }

    // The next line, without its end, and empty where it was skipped; none where the text has no whole line.
    pub fn next_line(&mut self) -> Option<&[u8]> {
        let from = self.from;
        let rest = &self.bytes[self.searched..self.filled];
        let Some(n) = rest.iter().position(|&b| b == b'\n') else {
            self.searched = self.filled;
            return None;
        };
        let end = self.searched + n;
        self.from = end + 1;
        self.searched = end + 1;
        let to = if self.skipping { from } else { end };
        self.skipping = false;
        Some(&self.bytes[from..to])
    }

    // What is left of the text once its whole lines are taken, and empty where it is skipped.
    pub fn last_line(&self) -> &[u8] {
        if self.skipping {
            &self.bytes[..0]
        } else {
            &self.bytes[self.from..self.filled]
        }
    }

    // Moves what is left to the front. Where it is longer than a line may be, it is skipped, up to its end; says whether that begins now.
    pub fn make_room(&mut self) -> bool {
        let rest = self.filled - self.from;
        let too_long = LINE_MAX < rest;
        let begins = too_long && !self.skipping;
        if too_long {
            self.from = self.filled;
            self.searched = self.filled;
            self.skipping = true;
        }
        // Nothing is moved where it stands at the front: a long line may come a byte a read.
        if 0 < self.from {
            self.bytes.copy_within(self.from..self.filled, 0);
            self.searched = self.searched - self.from;
            self.filled = self.filled - self.from;
            self.from = 0;
        }
        begins
    }

    // Reads once, behind what is there, and says whether anything came. A read that fails gives nothing.
    pub fn fetch(&mut self, rt: &impl Input) -> bool {
        let n = match rt.reader().read(&mut self.bytes[self.filled..]) {
            Ok(n) => n,
            Err(_) => 0,
        };
        self.filled += n;
        0 < n
    }
}
