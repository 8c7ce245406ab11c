// The calls `crc`, `frame-write` and `frame-read`.
use crate::answers;
use crate::answers::{Answers, LENT_MAX, NotMade, Refusal};
use frame::Frame;
use text::Words;

// crc HEX
pub fn crc(mut words: Words, bytes: &mut [u8], out: &mut Answers) -> Result<(), NotMade> {
    let n = words.run(bytes)?;
    words.finish()?;
    let [low, high] = crc::check(&bytes[..n]).to_le_bytes();
    out.put_bytes(b"crc ");
    out.put_byte(low);
    out.put_byte(high);
    answers::end(out);
    Ok(())
}

// frame-write LEN CC DEST SRC HEX: the frame, into lent bytes that are filled anew
pub fn frame_write(
    mut words: Words,
    bytes: &mut [u8],
    lent: &mut [u8],
    out: &mut Answers,
) -> Result<(), NotMade> {
    let size = words.number(b' ', LENT_MAX)? as usize;
    let control = words.control()?;
    let destination = words.number(b' ', 65535)? as u16;
    let source = words.number(b' ', 65535)? as u16;
    let n = words.run(bytes)?;
    words.finish()?;
    let room = size.min(lent.len());
    let lent = &mut lent[..room];
    lent.fill(answers::FILL);
    let r = frame::write_frame(lent, control, destination, source, &bytes[..n]);
    answers::tell(out, r.map_err(Refusal::from), b"frame ", lent);
    Ok(())
}

// frame-read: the bytes of a frame, read into lent bytes that are filled anew
pub fn frame_read(given: &[u8], lent: &mut [u8], out: &mut Answers) {
    lent.fill(answers::FILL);
    let r = frame::read_frame(given, lent).map_err(Refusal::from);
    let used = put_frame(out, r, lent);
    answers::end_past(out, used, lent);
}

// `user CC DEST SRC HEX` of a frame that was read, or why it was refused. Says how many of the lent bytes are the answer.
pub fn put_frame(out: &mut Answers, r: Result<Frame, Refusal>, lent: &[u8]) -> usize {
    if let Ok(f) = r {
        out.put_bytes(b"user ");
        out.put_byte(f.control);
        answers::number(out, b' ', f.destination);
        answers::number(out, b' ', f.source);
        out.put(b' ');
    }
    answers::put_outcome(out, r.map(|f| f.len), b"", lent)
}
