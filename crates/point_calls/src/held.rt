// The events that the outstation holds.
use event_store::EVENT_WORDS;
use events::{Event, Shown};
use line_calls::answers;
use line_calls::answers::Answers;
use points::Value;

// `held COUNT EVENT..`, oldest first
pub fn put_held(out: &mut Answers, held: &[u64; EVENT_WORDS], count: usize) {
    let n = events::filled(count);
    out.put_bytes(b"held ");
    out.put_decimal(n as u64);
    for i in 0..n {
        put_event(out, event_store::load(held, i).event);
    }
}

// ` KIND,INDEX,VALUE,FLAGS,TIME`
fn put_event(out: &mut Answers, e: Event) {
    match e.shown {
        Shown::State(state) => {
            put_point(out, b'b', e.point);
            out.put(if state { b'1' } else { b'0' });
        }
        Shown::Analog(v) => put_value(out, e.point, v),
    }
    answers::number(out, b',', u16::from(e.flags));
    out.put(b',');
    out.put_decimal(e.time);
}

// ` KIND,INDEX,VALUE` of an analog point
fn put_value(out: &mut Answers, point: u16, v: Value) {
    match v {
        Value::Int32(z) => {
            put_point(out, b'1', point);
            put_signed(out, z);
        }
        Value::Int16(z) => {
            put_point(out, b'2', point);
            put_signed(out, i32::from(z));
        }
        Value::Float32(x) => {
            put_point(out, b'5', point);
            out.put_hex(&words::float_bits(x).to_be_bytes());
        }
    }
}

// ` KIND,INDEX,`
fn put_point(out: &mut Answers, kind: u8, point: u16) {
    out.put(b' ');
    out.put(kind);
    answers::number(out, b',', point);
    out.put(b',');
}

// A whole value: its sign where it is negative, and its distance from 0.
fn put_signed(out: &mut Answers, z: i32) {
    if z < 0 {
        out.put(b'-');
    }
    out.put_decimal(u64::from(z.unsigned_abs()));
}
