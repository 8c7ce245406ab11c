// The calls `seg` and `send`: segments put together, and a fragment sent in segments.
use crate::answers;
use crate::answers::{Answers, Refusal};
use crate::session::LineSession;

// The most segments of a fragment.
const SEGMENTS_MAX: usize = 9;

impl LineSession {
    // seg: a segment is heard, with so many of the bytes that segments are put together in; `before` keeps them as they were.
    pub fn seg(&mut self, segment: &[u8], before: &mut [u8], out: &mut Answers) {
        let room = before.len().min(self.gathered.len());
        let before = &mut before[..room];
        let assembly = self.assembly;
        let gathered = &mut self.gathered[..room];
        before.copy_from_slice(gathered);
        let r = transport::receive(assembly, segment, gathered);
        let used = match r.answer {
            // The bytes used are those put together so far.
            Ok(None) => {
                out.put_bytes(b"more");
                r.assembly.len.min(room)
            }
            Ok(Some(n)) => answers::put_outcome(out, Ok(n), b"whole ", gathered),
            Err(why) => answers::put_outcome(out, Err(Refusal::from(why)), b"", gathered),
        };
        answers::end_with(out, gathered[used..] != before[used..]);
        self.assembly = r.assembly;
    }

    // send: the segments of a fragment, each into lent bytes that are filled anew; a refusal is told instead
    pub fn send(&mut self, fragment: &[u8], lent: &mut [u8], out: &mut Answers) {
        let begin = out.len;
        out.put_bytes(b"segs");
        let mut spoilt = false;
        for _ in 0..SEGMENTS_MAX {
            lent.fill(answers::FILL);
            let r = transport::send(self.sender, fragment, lent);
            self.sender = r.sender;
            if r.answer.is_err() {
                out.len = begin;
            }
            let size = r.answer.map(|s| s.size).map_err(Refusal::from);
            let used = answers::put_outcome(out, size, b" ", lent);
            spoilt = spoilt || answers::is_changed(&lent[used..]);
            match r.answer {
                Ok(s) if !s.last => {}
                _ => break,
            }
        }
        answers::end_with(out, spoilt);
    }
}
