// The call `piece`: bytes off the wire, as they come, made into frames.
use crate::answers::{Answers, Refusal};
use crate::session::LineSession;
use crate::{answers, frames};

impl LineSession {
    // piece: bytes came, behind those that the memory keeps; a frame's user data goes into lent bytes that are filled anew
    pub fn piece(&mut self, given: &[u8], lent: &mut [u8], out: &mut Answers) {
        lent.fill(answers::FILL);
        let r = receiver::receive(&mut self.memory, self.kept, given, lent);
        self.kept = r.kept;
        // `user CC DEST SRC HEX`, `no N` or `waits`
        let used = match r.answer {
            Some(f) => frames::put_frame(out, f.map_err(Refusal::from), lent),
            None => {
                out.put_bytes(b"waits");
                0
            }
        };
        // The bytes past these are given again.
        out.put_bytes(b" taken ");
        out.put_decimal(r.taken as u64);
        answers::end_past(out, used, lent);
    }
}
