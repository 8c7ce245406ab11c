// Control requests: their one object header, the status of each object, the echo, and what is carried out.
#![tactic(auto)]

ghost use Rattle.std.specs.Prelude.{◌≡◌, [], ◌+◌, ◌≤◌, ◌<◌, length, take, drop};
ghost use Rattle.std.specs.Int.{w16};
ghost use Rattle.std.proofs.Common.{to_z};
ghost use Rattle.octets.specs.Bytes.{splice, value_at};
ghost use Rattle.laws.specs.Lists.{member};
ghost use Rattle.analog_outputs.specs.OutputWords.{outputs_in};
ghost use Rattle.control.specs.Objects.{
  objects_max,
  answer_max,
  value_size,
  span,
  formed_as,
  formed,
  HasObjects,
  command_at,
  object_at,
  objects,
  list_of,
  Holding,
  earlier_of,
};
ghost use Rattle.control.specs.Status.{
  outputs_of,
  known_code,
  is_pulse,
  wrong_pulse,
  relay_can,
  analog_can,
  can_do,
  status_of,
  statuses,
  all_zero,
  echoed,
  echo_of,
  chosen,
};

use analog_outputs::{ANALOG_OUTPUT_WORDS, ANALOG_OUTPUTS_MAX};
use application::Fault;
use points::Value;

// A control request has at most so many objects.
pub const OBJECTS_MAX: usize = 8;
// Its header and objects have at most so many bytes.
pub const ECHO_MAX: usize = 109;
// And its answer at most so many.
pub const ANSWER_MAX: usize = 113;
// A pulse has at most so many milliseconds.
const ON_TIME_MAX: u32 = 60000;

// The objects that a control request may have: group 12 variation 1, group 41 variations 1 to 3.
#[derive(Clone, Copy, Debug, PartialEq, Eq)]
pub enum ObjectKind {
    Crob,
    Int32,
    Int16,
    Float32,
}

// What a control relay output block asks of its relay.
#[derive(Clone, Copy, Debug, PartialEq, Eq)]
pub struct Crob {
    pub on_time: u32,
    pub off_time: u32,
    pub code: u8,
    pub count: u8,
}

// What an object asks of its output: of a relay, or of an analog output the value that it is to have.
#[derive(Clone, Copy)]
pub enum Command {
    Crob(Crob),
    AnalogOutput(Value),
}

// One object with the index it is for. The status is the request's, as it came.
#[derive(Clone, Copy)]
pub struct ControlObject {
    pub index: u16,
    pub status: u8,
    pub command: Command,
}

// Up to OBJECTS_MAX objects, in the order asked. An array with its count beside it, and no ArrayVec, which is not Copy: it goes by value up to
// C's answer.
#[derive(Clone, Copy)]
pub struct ControlObjects {
    pub items: [ControlObject; OBJECTS_MAX],
    pub count: usize,
}

// How many outputs of each kind are installed.
#[derive(Clone, Copy, Debug, PartialEq, Eq)]
pub struct OutputCounts {
    pub relays: u16,
    pub analog: u16,
}

// What the one header of a control request says: so many objects of a kind, the count and each index in so many bytes.
#[derive(Clone, Copy, Debug, PartialEq, Eq)]
pub struct Form {
    pub kind: ObjectKind,
    pub width: usize,
    pub count: usize,
}

// A number of one or two bytes.
fn number(b: &[u8], at: usize, w: usize) -> u16
    requires { (at + w ≤ length b.now) × (w ≤ 2) }
    ensures { result ≡ value_at w at b.now }
{
    octets::take(b, at, w) as u16
}

// The bytes of an object's value.
fn value_size(kind: ObjectKind) -> usize
    ensures { (result ≡ value_size kind) × (result ≤ 10) }
{
    match kind {
        ObjectKind::Crob => 10,
        ObjectKind::Int32 => 4,
        ObjectKind::Int16 => 2,
        ObjectKind::Float32 => 4,
    }
}

// The bytes of n objects.
fn bytes(w: usize, z: usize, n: u16) -> usize
    requires { (w ≤ 2) × (z ≤ 10) }
    ensures { (result ≡ span w z n) × (result ≤ 851955) }
{
    (w + z + 1) * n as usize
}

// The one header of a control request, its group and variation known.
fn header_as(kind: ObjectKind, o: &[u8]) -> Result<Form, Fault>
    requires { 3 ≤ length o.now }
    ensures { result ≡ formed_as kind o.now }
{
    let width = match o[2] {
        0x17 => 1,
        0x28 => 2,
        _ => return Err(Fault::BadParameter),
    };
    if o.len() < 3 + width {
        return Err(Fault::BadParameter);
    }
    let n = number(o, 3, width);
    if o.len() != 3 + width + bytes(width, value_size(kind), n) {
        return Err(Fault::BadParameter);
    }
    let count = usize::from(n);
    if count == 0 || OBJECTS_MAX < count {
        return Err(Fault::BadParameter);
    }
    Ok(Form { kind, width, count })
}

// The one header of a control request.
pub fn header(o: &[u8]) -> Result<Form, Fault>
    ensures { result ≡ formed o.now }
{
    if o.len() < 3 {
        return Err(Fault::BadParameter);
    }
    let kind = match (o[0], o[1]) {
        (12, 1) => ObjectKind::Crob,
        (41, 1) => ObjectKind::Int32,
        (41, 2) => ObjectKind::Int16,
        (41, 3) => ObjectKind::Float32,
        _ => return Err(Fault::ObjectUnknown),
    };
    header_as(kind, o)
}

// The signed number of these bits, two's complement: its definition's name beside `words::signed`'s.
fn signed_16(bits: u16) -> i16
    ensures { result ≡ to_z w16 bits }
{
    bits.cast_signed()
}

// What the object at the offset asks.
fn take_command(b: &[u8], kind: ObjectKind, at: usize) -> Command
    requires { (at + value_size kind ≤ length b.now) × (at ≤ 2) }
    ensures { result ≡ command_at kind at b.now }
{
    match kind {
        ObjectKind::Crob => Command::Crob(Crob {
            code: b[at],
            count: b[at + 1],
            on_time: octets::take4(b, at + 2),
            off_time: octets::take4(b, at + 6),
        }),
        ObjectKind::Int32 => {
            Command::AnalogOutput(Value::Int32(words::signed(octets::take4(b, at))))
        }
        ObjectKind::Int16 => Command::AnalogOutput(Value::Int16(signed_16(number(b, at, 2)))),
        ObjectKind::Float32 => {
            Command::AnalogOutput(Value::Float32(words::float(octets::take4(b, at))))
        }
    }
}

// The object at the front of the bytes.
fn take_object(b: &[u8], kind: ObjectKind, w: usize) -> ControlObject
    requires { (w + value_size kind + 1 ≤ length b.now) × (w ≤ 2) }
    ensures { result ≡ object_at kind w b.now }
{
    ControlObject {
        index: number(b, 0, w),
        status: b[w + value_size(kind)],
        command: take_command(b, kind, w),
    }
}

// No objects.
pub fn none() -> ControlObjects
    ensures { Holding result [] }
{
    let unused = ControlObject {
        index: 0,
        status: 0,
        command: Command::Crob(Crob {
            code: 0,
            count: 0,
            on_time: 0,
            off_time: 0,
        }),
    };
    ControlObjects {
        items: [unused; OBJECTS_MAX],
        count: 0,
    }
}

// The objects at the front of the bytes. `at` counts beside the `for`: by bytes, where `i` counts objects.
fn taken(b: &[u8], x: Form) -> ControlObjects
    requires { (span x.width (value_size x.kind) x.count ≤ length b.now) × (x.width ≤ 2) × (x.count ≤ objects_max) }
    ensures { Holding result (objects x.kind x.width x.count b.now) }
{
    let size = x.width + value_size(x.kind) + 1;
    let mut next = none();
    let mut at: usize = 0;
    for i in 0..x.count {
        next.items[i] = take_object(&b[at..], x.kind, x.width);
        at += size;
    }
    next.count = x.count;
    next
}

// The objects of a control request with this header.
pub fn objects(o: &[u8], x: Form) -> ControlObjects
    requires { HasObjects x o.now }
    ensures { Holding result (objects x.kind x.width x.count (drop (3 + x.width) o.now)) }
{
    taken(&o[3 + x.width..], x)
}

// The index is that of one of the first n objects.
fn seen(cs: ControlObjects, n: usize, index: u16) -> bool
    requires { n ≤ objects_max }
    ensures { result ≡ member index (earlier_of cs.items n) }
{
    cs.items[..n].iter().any(|c| index == c.index)
}

// One of the five control codes.
fn known_code(code: u8) -> bool
    ensures { result ≡ known_code code }
{
    matches!(code, 0x01 | 0x03 | 0x04 | 0x41 | 0x81)
}

// One of the three codes that pulse: trip, close, or neither.
fn is_pulse(code: u8) -> bool
    ensures { result ≡ is_pulse code }
{
    matches!(code, 0x01 | 0x41 | 0x81)
}

// A pulse with no length, or too long a one.
fn wrong_pulse(code: u8, on_time: u32) -> bool
    ensures { result ≡ wrong_pulse code on_time }
{
    is_pulse(code) && (on_time == 0 || ON_TIME_MAX < on_time)
}

// Whether what is asked of this relay can be done.
fn relay_can(relays: u16, index: u16, c: Crob) -> bool
    ensures { result ≡ relay_can relays index c }
{
    index < relays && known_code(c.code) && c.count == 1 && !wrong_pulse(c.code, c.on_time)
}

// Whether this analog output can have the value.
fn analog_can(count: u16, ws: &[u32; ANALOG_OUTPUT_WORDS], index: u16, v: Value) -> bool
    ensures { result ≡ analog_can (take count (outputs_in ws.now)) index v }
{
    let i = index as usize;
    i < (count as usize).min(ANALOG_OUTPUTS_MAX)
        && analog_outputs::takes(analog_outputs::load_output(ws, i), v)
}

// The same by what is asked.
fn can_do(n: OutputCounts, ws: &[u32; ANALOG_OUTPUT_WORDS], index: u16, c: Command) -> bool
    ensures { result ≡ can_do (outputs_of n ws.now) index c }
{
    match c {
        Command::Crob(x) => relay_can(n.relays, index, x),
        Command::AnalogOutput(v) => analog_can(n.analog, ws, index, v),
    }
}

// The status of one object, for SELECT and direct operation: IEEE 1815's byte, which the echo gives as it is.
fn status(n: OutputCounts, ws: &[u32; ANALOG_OUTPUT_WORDS], again: bool, c: ControlObject) -> u8
    ensures { result ≡ status_of (outputs_of n ws.now) again c }
{
    if c.status != 0 {
        3
    } else if !can_do(n, ws, c.index, c.command) {
        4
    } else if again {
        8
    } else {
        0
    }
}

// The status of each object, for SELECT and direct operation.
pub fn statuses(
    cs: ControlObjects,
    counts: OutputCounts,
    ws: &[u32; ANALOG_OUTPUT_WORDS],
) -> [u8; OBJECTS_MAX]
    ensures { (take cs.count result ≡ statuses (outputs_of counts ws.now) [] (list_of cs)) × (length result ≡ objects_max) }
{
    let n = cs.count.min(OBJECTS_MAX);
    let mut ss = [0u8; OBJECTS_MAX];
    for i in 0..n {
        let c = cs.items[i];
        ss[i] = status(counts, ws, seen(cs, i, c.index), c);
    }
    ss
}

// The first statuses, so many, are all 0.
pub fn all_zero(ss: [u8; OBJECTS_MAX], count: usize) -> bool
    ensures { result ≡ all_zero (take count ss) }
{
    ss.iter().take(count).all(|&s| s == 0)
}

// The objects whose status is 0. `j` counts beside the `for`, since what is chosen moves down: no plainer.
pub fn with_zero(cs: ControlObjects, ss: [u8; OBJECTS_MAX]) -> ControlObjects
    ensures { Holding result (chosen (list_of cs) (take cs.count ss)) }
{
    let n = cs.count.min(OBJECTS_MAX);
    let mut next = none();
    let mut j: usize = 0;
    for i in 0..n {
        if ss[i] == 0 {
            next.items[j] = cs.items[i];
            j += 1;
        }
    }
    next.count = j;
    next
}

// Puts n objects with these statuses at the offset. It takes two sizes and a number and not a `Form`, whose kind says nothing here: that is plainer.
// `from` counts beside the `for`: by bytes, where `i` counts objects.
fn put_objects(out: &mut [u8], at: usize, b: &[u8], w: usize, z: usize, ss: &[u8], n: usize)
    requires { (at + span w z n ≤ length out.old) × (span w z n ≤ length b.now) × (n ≤ length ss.now) }
    ensures { out.new ≡ splice out.old at (echoed w z (take n ss.now) b.now) }
{
    let mut from: usize = 0;
    for i in 0..n {
        let e = from + w + z;
        octets::copy(out, at + from, &b[from..e]);
        out[at + e] = ss[i];
        from = e + 1;
    }
}

// Puts the header and its objects with these statuses at 4, and says how many bytes.
pub fn put_echo(out: &mut [u8], o: &[u8], x: Form, ss: [u8; OBJECTS_MAX]) -> usize
    requires { (answer_max ≤ length out.old) × HasObjects x o.now }
    ensures { (out.new ≡ splice out.old 4 (echo_of x.width (value_size x.kind) (take x.count ss) o.now))
        × (result ≡ length (echo_of x.width (value_size x.kind) (take x.count ss) o.now)) }
{
    let h = 3 + x.width;
    octets::copy(out, 4, &o[..h]);
    put_objects(
        out,
        4 + h,
        &o[h..],
        x.width,
        value_size(x.kind),
        &ss,
        x.count,
    );
    o.len()
}
