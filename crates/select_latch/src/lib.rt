// The select latch, and what a control request does to it, to the answer and to the outputs.
#![tactic(auto)]

ghost use Rattle.std.specs.Prelude.{◌≡◌, ◌≤◌, ◌<◌, length, take};
ghost use Rattle.octets.specs.Bytes.{splice};
ghost use Rattle.control.specs.Objects.{objects_max, echo_max, answer_max, value_size, HasObjects, list_of, Holding};
ghost use Rattle.control.specs.Status.{outputs_of, echo_of};
ghost use Rattle.select_latch.specs.Select.{
  group_of,
  selected,
  latch_of,
  latch_len,
  operate_status,
  statuses_by,
  carried_by,
  latch_by,
  echo_by,
  control_effect,
  ControlHolds,
};

use analog_outputs::ANALOG_OUTPUT_WORDS;
use application::{ApplicationSequence, Fault};
use control::{ControlObjects, ECHO_MAX, Form, OBJECTS_MAX, ObjectKind, OutputCounts};

// The functions 3 to 6.
#[derive(Clone, Copy, Debug, PartialEq, Eq)]
pub enum ControlFunction {
    Select,
    Operate,
    DirectOperate,
    DirectOperateNoResponse,
}

// What a latch is armed for: relays, group 12, or analog outputs, group 41.
#[derive(Clone, Copy, Debug, PartialEq, Eq)]
pub enum ControlGroup {
    Crob,
    AnalogOutput,
}

// What an armed latch has of its SELECT: the group, the sequence, the time and the object bytes. A latch is an Option of it. The bytes
// are an array with their length beside it, as the host lends them.
#[derive(Clone, Copy)]
pub struct Selection {
    pub group: ControlGroup,
    pub sequence: ApplicationSequence,
    pub time: u64,
    pub objects: [u8; ECHO_MAX],
    pub len: usize,
}

// What a control request does. The echo of so many bytes is in the lent bytes from 4. No `Result`: a request with a fault is answered too, and
// effects puts both together in the same way.
#[derive(Clone, Copy)]
pub struct Controlled {
    pub fault: Option<Fault>,
    pub len: usize,
    pub carried: ControlObjects,
    pub latch: Option<Selection>,
}

// Armed for a group by a SELECT with these object bytes.
fn arm(group: ControlGroup, sequence: ApplicationSequence, time: u64, o: &[u8]) -> Selection
    requires { length o.now ≤ echo_max }
    ensures { (latch_of (Some result) ≡ selected group sequence.0 time o.now) × (result.len ≤ echo_max) }
{
    let mut objects = [0u8; ECHO_MAX];
    octets::copy(&mut objects, 0, o);
    Selection {
        group,
        sequence,
        time,
        objects,
        len: o.len(),
    }
}

fn group_of(kind: ObjectKind) -> ControlGroup
    ensures { result ≡ group_of kind }
{
    match kind {
        ObjectKind::Crob => ControlGroup::Crob,
        ObjectKind::Int32 | ObjectKind::Int16 | ObjectKind::Float32 => ControlGroup::AnalogOutput,
    }
}

// The status of every object of an OPERATE: IEEE 1815's byte, which the echo gives as it is.
pub fn operate_status(
    latch: Option<Selection>,
    arm_time: u64,
    group: ControlGroup,
    sequence: ApplicationSequence,
    time: u64,
    o: &[u8],
) -> u8
    ensures { result ≡ operate_status arm_time (latch_of latch) group sequence.0 time o.now }
{
    let Some(selection) = latch else {
        return 2;
    };
    if selection.group != group {
        return 2;
    }
    let len = selection.len.min(ECHO_MAX);
    if !octets::equal(o, &selection.objects[..len]) {
        return 2;
    }
    if sequence != application::next(selection.sequence) {
        return 2;
    }
    if arm_time < application::elapsed(selection.time, time) {
        1
    } else {
        0
    }
}

// The status of each object; s is that of an OPERATE.
fn statuses_by(
    f: ControlFunction,
    cs: ControlObjects,
    counts: OutputCounts,
    ws: &[u32; ANALOG_OUTPUT_WORDS],
    s: u8,
) -> [u8; OBJECTS_MAX]
    requires { cs.count ≤ objects_max }
    ensures { (take cs.count result ≡ statuses_by f (outputs_of counts ws.now) s (list_of cs)) × (length result ≡ objects_max) }
{
    if f == ControlFunction::Operate {
        [s; OBJECTS_MAX]
    } else {
        control::statuses(cs, counts, ws)
    }
}

// The objects to hand to the host.
fn carry(f: ControlFunction, cs: ControlObjects, ss: [u8; OBJECTS_MAX]) -> ControlObjects
    ensures { Holding result (carried_by f (list_of cs) (take cs.count ss)) }
{
    if f == ControlFunction::Select {
        control::none()
    } else {
        control::with_zero(cs, ss)
    }
}

// The latch after a request with these statuses.
#[tactic(auto, unfolding(crate::specs::Select::latch_of))]
fn latch_after(
    f: ControlFunction,
    group: ControlGroup,
    ss: [u8; OBJECTS_MAX],
    n: usize,
    sequence: ApplicationSequence,
    time: u64,
    o: &[u8],
) -> Option<Selection>
    requires { length o.now ≤ echo_max }
    ensures { (latch_of result ≡ latch_by f group (take n ss) sequence.0 time o.now) × (latch_len result ≤ echo_max) }
{
    if f == ControlFunction::Select && control::all_zero(ss, n) {
        Some(arm(group, sequence, time, o))
    } else {
        None
    }
}

// Puts the echo of the objects, where the function is answered, and says its length: function 6 is never answered. `answer_max ≤ length out` is a
// short clause, so it stands at each call on the way: a type around it would be made and opened at every one.
fn answer(f: ControlFunction, out: &mut [u8], o: &[u8], x: Form, ss: [u8; OBJECTS_MAX]) -> usize
    requires { (answer_max ≤ length out.old) × HasObjects x o.now }
    ensures { (out.new ≡ splice out.old 4 (echo_by f (echo_of x.width (value_size x.kind) (take x.count ss) o.now)))
        × (result ≡ length (echo_by f (echo_of x.width (value_size x.kind) (take x.count ss) o.now))) }
{
    if f == ControlFunction::DirectOperateNoResponse {
        0
    } else {
        control::put_echo(out, o, x, ss)
    }
}

// What a control request with these object bytes does.
pub fn control_effect(
    latch: Option<Selection>,
    counts: OutputCounts,
    ws: &[u32; ANALOG_OUTPUT_WORDS],
    arm_time: u64,
    f: ControlFunction,
    sequence: ApplicationSequence,
    time: u64,
    o: &[u8],
    out: &mut [u8],
) -> Controlled
    requires { answer_max ≤ length out.old }
    ensures { ControlHolds result out.old out.new (control_effect (outputs_of counts ws.now) arm_time (latch_of latch) f sequence.0 time o.now) }
{
    match control::header(o) {
        Err(fault) => Controlled {
            fault: Some(fault),
            len: 0,
            carried: control::none(),
            latch: None,
        },
        Ok(x) => {
            let group = group_of(x.kind);
            let cs = control::objects(o, x);
            let s = operate_status(latch, arm_time, group, sequence, time, o);
            let ss = statuses_by(f, cs, counts, ws, s);
            let len = answer(f, out, o, x, ss);
            Controlled {
                fault: None,
                len,
                carried: carry(f, cs, ss),
                latch: latch_after(f, group, ss, x.count, sequence, time, o),
            }
        }
    }
}
