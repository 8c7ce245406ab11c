// The call `frag`: a fragment, its answer, and the objects carried out.
use crate::Console;
use crate::unit::Unit;
use control::{Command, ControlObject, ControlObjects, Crob, OBJECTS_MAX};
use fragments::{FragmentAnswer, FragmentResult};
use line_calls::answers;
use line_calls::answers::{Answers, FILL, NotMade, Refusal};
use outstation::Head;
use points::Value;
use text::Words;

impl Console {
    // frag T LEN HEX: the answer goes into lent bytes that are filled anew
    pub fn frag(&mut self, mut words: Words) -> Result<(), NotMade> {
        let time = words.number(b' ', u64::MAX)?;
        let (size, n) = answers::lending(&mut words, &mut self.bytes)?;
        words.finish()?;
        let head = self.need_head()?;
        exchange(
            &mut self.unit,
            head,
            time,
            &self.bytes[..n],
            size,
            &mut self.lent,
            &mut self.out,
        );
        Ok(())
    }
}

// The fragment, with so many bytes lent for its answer.
fn exchange(
    unit: &mut Unit,
    head: Head,
    time: u64,
    f: &[u8],
    size: usize,
    lent: &mut [u8],
    out: &mut Answers,
) {
    let room = size.min(lent.len());
    let lent = &mut lent[..room];
    lent.fill(FILL);
    let r = unit.fragment(head, time, f, lent);
    let used = put_result(out, &r, lent);
    answers::end_past(out, used, lent);
}

// What the fragment came to. Says how many of the lent bytes are the answer.
fn put_result(out: &mut Answers, r: &FragmentResult, lent: &[u8]) -> usize {
    match r.answer {
        Ok(FragmentAnswer::Answer(n)) => {
            let used = answers::put_outcome(out, Ok(n), b"ans ", lent);
            put_operated(out, &r.operated);
            used
        }
        Ok(FragmentAnswer::Silent) => {
            out.put_bytes(b"mute");
            put_operated(out, &r.operated);
            0
        }
        Ok(FragmentAnswer::Confirmed) => {
            out.put_bytes(b"conf");
            0
        }
        Err(why) => answers::put_outcome(out, Err(Refusal::new(why.number())), b"", lent),
    }
}

// ` -`, or what stands for each object carried out
fn put_operated(out: &mut Answers, operated: &ControlObjects) {
    let n = operated.count.min(OBJECTS_MAX);
    if n == 0 {
        out.put_bytes(b" -");
    }
    for &object in &operated.items[..n] {
        put_object(out, object);
    }
}

// ` INDEX:HEX` with a CROB's 11 bytes, or ` V@INDEX:HEX` with a value and the status
fn put_object(out: &mut Answers, object: ControlObject) {
    match object.command {
        Command::Crob(crob) => {
            answers::number(out, b' ', object.index);
            put_crob(out, crob);
        }
        Command::AnalogOutput(v) => put_value(out, object.index, v),
    }
    out.put_byte(object.status);
}

// Code, count, on-time and off-time.
fn put_crob(out: &mut Answers, crob: Crob) {
    out.put(b':');
    out.put_byte(crob.code);
    out.put_byte(crob.count);
    out.put_hex(&crob.on_time.to_le_bytes());
    out.put_hex(&crob.off_time.to_le_bytes());
}

// ` V@INDEX:` and the value's bytes, the lowest first
fn put_value(out: &mut Answers, index: u16, v: Value) {
    match v {
        Value::Int32(z) => {
            put_output(out, b" 1", index);
            out.put_hex(&z.to_le_bytes());
        }
        Value::Int16(z) => {
            put_output(out, b" 2", index);
            out.put_hex(&z.to_le_bytes());
        }
        Value::Float32(x) => {
            put_output(out, b" 3", index);
            out.put_hex(&words::float_bits(x).to_le_bytes());
        }
    }
}

fn put_output(out: &mut Answers, variation: &[u8], index: u16) {
    out.put_bytes(variation);
    answers::number(out, b'@', index);
    out.put(b':');
}
