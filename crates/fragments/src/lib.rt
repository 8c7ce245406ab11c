// A fragment on a head by value and lent memory: refused, a CONFIRM, a READ, a repeat, or another request.
#![tactic(auto)]

ghost use Rattle.std.specs.Prelude.{◌≡◌, cond, true, [], ◌≤◌, eqb, length};
ghost use Rattle.laws.specs.Limits.{fragment_max};
ghost use Rattle.octets.specs.Bytes.{splice};
ghost use Rattle.application.specs.Response.{response_of};
ghost use Rattle.control.specs.Objects.{Holding, answer_max};
ghost use Rattle.select_latch.specs.Select.{latch_of, latch_len};
ghost use Rattle.last_request.specs.Repeat.{kept_answer, last_in};
ghost use Rattle.outstation.specs.Lent.{group_in, latch_in, last_lengths};
ghost use Rattle.outstation.specs.Step.{indications_of, newly_sent};
ghost use Rattle.event_store.specs.EventWords.{buffer_view_in};
ghost use Rattle.words.specs.Numbers.{holds};
ghost use Rattle.fragments.specs.FragmentMeets.{
  context_in,
  con_by,
  FragmentHolds,
  ConfirmedHolds,
  ConfirmHolds,
  ReadHolds,
  RepeatHolds,
  OtherHolds,
  RequestHolds,
  LeftIn,
  ReadLeft,
};

use analog_outputs::ANALOG_OUTPUT_WORDS;
use application::{ApplicationSequence, FRAGMENT_MAX, Fault, Fragment, Indications};
use control::{ANSWER_MAX, ControlObjects, ECHO_MAX, OutputCounts};
use effects::{RequestContext, RequestEffect};
use event_store::{BufferStatus, EVENT_WORDS};
use last_request::LastLengths;
use outstation::{Awaited, Head};
use point_store::{ANALOG_WORDS, BINARY_WORDS};
use select_latch::{ControlGroup, Selection};
use static_objects::Points;

// Why a fragment is refused.
#[derive(Clone, Copy, Debug, PartialEq, Eq)]
pub enum FragmentRefusal {
    // 1: time at or above 2^48, or before the last accepted call's.
    Time,
    // 31: under 2 or over 2,048 bytes; FIR, FIN or CON wrong; UNS outside CONFIRM; function 128 or more; CONFIRM not 2 bytes.
    Malformed,
    // 32: CONFIRM not accepted.
    NotConfirmed,
    // 33: under 2,048 lent bytes.
    OutputTooSmall,
}

impl FragmentRefusal {
    ghost use Rattle.fragments.specs.FragmentMeets.{fragment_refusal_number};

    // Document 01's number of a refusal.
    pub fn number(self) -> u8
        ensures { result ≡ fragment_refusal_number self }
    {
        match self {
            FragmentRefusal::Time => 1,
            FragmentRefusal::Malformed => 31,
            FragmentRefusal::NotConfirmed => 32,
            FragmentRefusal::OutputTooSmall => 33,
        }
    }
}

// What an accepted fragment comes to.
#[derive(Clone, Copy, Debug, PartialEq, Eq)]
pub enum FragmentAnswer {
    // The answer is the first so many lent bytes.
    Answer(usize),
    // Accepted, and not answered: function 6.
    Silent,
    // A CONFIRM was accepted.
    Confirmed,
}

// The head after the call, the answer or the refusal, and the objects handed to the host to be carried out, in the order asked.
#[derive(Clone, Copy)]
pub struct FragmentResult {
    pub head: Head,
    pub answer: Result<FragmentAnswer, FragmentRefusal>,
    pub operated: ControlObjects,
}

// A request of the master: its sequence and function, when it came, and all its bytes. The function is IEEE 1815's byte: any below 128 may come.
#[derive(Clone, Copy)]
struct Request<'a> {
    sequence: ApplicationSequence,
    function: u8,
    time: u64,
    bytes: &'a [u8],
    ghost headed: { 2 ≤ length bytes.now },
    ghost short: { length bytes.now ≤ fragment_max },
}

// What an answer says beside its objects and the indications of the state.
#[derive(Clone, Copy)]
pub struct ResponseFlags {
    pub fault: Option<Fault>,
    pub con: bool,
}

// A refused fragment leaves everything as it was.
fn refuse(h: Head, why: FragmentRefusal) -> FragmentResult
    ensures { (result.head ≡ h) × (result.answer ≡ Err why) × Holding result.operated [] }
{
    FragmentResult {
        head: h,
        answer: Err(why),
        operated: control::none(),
    }
}

// ---- CONFIRM

// An accepted CONFIRM: the carried events go, nothing is awaited any more.
fn accept_confirm(h: Head, held: &mut [u64; EVENT_WORDS], time: u64, a: Awaited) -> FragmentResult
    ensures { ConfirmedHolds h held.old time a.showed_overflow a.dropped_since result held.new }
{
    let t = event_store::release(held, outstation::buffer_status(h));
    let overflow = effects::still_dropped(a.showed_overflow, a.dropped_since, t.overflow);
    FragmentResult {
        head: Head {
            clock: time,
            event_count: t.count,
            overflow: u8::from(overflow),
            waiting: 0,
            ..h
        },
        answer: Ok(FragmentAnswer::Confirmed),
        operated: control::none(),
    }
}

fn take_confirm(
    h: Head,
    held: &mut [u64; EVENT_WORDS],
    q: ApplicationSequence,
    uns: bool,
    time: u64,
) -> FragmentResult
    ensures { ConfirmHolds h held.old q.0 uns time result held.new }
{
    match effects::confirm(h.confirm_time, outstation::wait_of(h), q, uns, time) {
        Some(a) => accept_confirm(h, held, time, a),
        None => refuse(h, FragmentRefusal::NotConfirmed),
    }
}

// ---- READ

// CON is set exactly on a faultless READ's answer with an event or IIN2.3.
fn con_by(f: Option<Fault>, carried: bool, overflow: bool) -> bool
    ensures { result ≡ con_by f carried overflow }
{
    f.is_none() && (carried || overflow)
}

// Puts the response header in front of the objects; the carried events are marked. What `out` must have room for is a short clause, so it stands
// at each function: a type around it would be made and opened at every call. `held` and its status: as in event_store.
fn put_response_header(
    out: &mut [u8],
    q: ApplicationSequence,
    s: ResponseFlags,
    held: &[u64; EVENT_WORDS],
    t: BufferStatus,
    restarted: bool,
)
    requires { 4 ≤ length out.old }
    ensures { out.new ≡
        splice out.old 0 (response_of q.0 s.con (indications_of (buffer_view_in held.now t) restarted) s.fault) }
{
    let c = event_store::classes_pending(held, t);
    let i = Indications {
        class_1: c.one,
        class_2: c.two,
        class_3: c.three,
        restart: restarted,
        dropped: t.overflow,
    };
    application::put_response(out, q, s.con, i, s.fault);
}

// The head after a READ: where its answer has CON it awaits confirmation. The latch is empty, whatever the lent bytes are.
fn after_read(h: Head, q: ApplicationSequence, time: u64, con: bool, k: LastLengths) -> Head
    ensures { ReadLeft h time (cond con (Some (newly_sent q time (holds h.overflow))) None) k result }
{
    Head {
        clock: time,
        waiting: u8::from(con),
        wait_sequence: q.0,
        wait_time: time,
        showed_overflow: h.overflow,
        dropped_since: 0,
        request_kept: 1,
        request_len: k.request_len,
        answer_len: k.answer_len,
        latch_armed: 0,
        ..h
    }
}

// Answers a READ. It is never repeated, so its answer is not kept.
fn answer_read(
    h: Head,
    binaries: &[u32; BINARY_WORDS],
    analogs: &[u32; ANALOG_WORDS],
    held: &mut [u64; EVENT_WORDS],
    request: &mut [u8; FRAGMENT_MAX],
    answer: &mut [u8; ANSWER_MAX],
    r: Request<'_>,
    out: &mut [u8],
) -> FragmentResult
    requires { fragment_max ≤ length out.old }
    ensures { ReadHolds h (λ o u. record { binaries = binaries.now; analogs = analogs.now; held = held.old; request = request.old; answer = answer.old; objects = o; outputs = u })
        r.entry.sequence.0 r.entry.time r.entry.bytes.now result
        (λ o u. record { binaries = binaries.now; analogs = analogs.now; held = held.new; request = request.new; answer = answer.new; objects = o; outputs = u })
        out.old out.new }
{
    let points = Points {
        binaries,
        analogs,
        installed: outstation::installed_of(h),
    };
    let t = outstation::buffer_status(h);
    let reply = read::respond(out, &r.bytes[2..], points, held, t);
    let fault = reply.fault;
    let con = con_by(fault, event_store::any_carried(held, t), t.overflow);
    put_response_header(
        out,
        r.sequence,
        ResponseFlags { fault, con },
        held,
        t,
        h.restarted != 0,
    );
    let kept = last_request::remember(request, answer, r.bytes, &r.bytes[..0]);
    FragmentResult {
        head: after_read(h, r.sequence, r.time, con, kept),
        answer: Ok(FragmentAnswer::Answer(reply.size)),
        operated: control::none(),
    }
}

// An answer of so many bytes: function 6 is never answered.
fn answer_as(function: u8, n: usize) -> FragmentAnswer
    ensures { result ≡ cond (eqb function 6) FragmentAnswer.Silent (FragmentAnswer.Answer n) }
{
    if function == 6 {
        FragmentAnswer::Silent
    } else {
        FragmentAnswer::Answer(n)
    }
}

// ---- a repeat

// How many of the lent bytes the last request and its answer have, if there is one.
fn last_of(h: Head) -> Option<LastLengths>
    ensures { result ≡ last_lengths h }
{
    if h.request_kept != 0 {
        Some(LastLengths {
            request_len: h.request_len,
            answer_len: h.answer_len,
        })
    } else {
        None
    }
}

// Puts the kept answer at the front of the lent bytes, and says its length: function 6 is never answered.
fn put_again(
    h: Head,
    request: &[u8; FRAGMENT_MAX],
    answer: &[u8; ANSWER_MAX],
    function: u8,
    out: &mut [u8],
) -> usize
    requires { answer_max ≤ length out.old }
    ensures { (out.new ≡ cond (eqb function 6) out.old (splice out.old 0 (kept_answer (last_in request.now answer.now (last_lengths h)))))
        × (result ≡ cond (eqb function 6) 0 (length (kept_answer (last_in request.now answer.now (last_lengths h)))))
        × (result ≤ answer_max) }
{
    if function == 6 {
        return 0;
    }
    last_request::answer_again(request, answer, last_of(h), out)
}

// The same answer again, nothing done, only the clock moves.
fn repeat_request(
    h: Head,
    request: &[u8; FRAGMENT_MAX],
    answer: &[u8; ANSWER_MAX],
    r: Request<'_>,
    out: &mut [u8],
) -> FragmentResult
    requires { fragment_max ≤ length out.old }
    ensures { RepeatHolds h request.now answer.now r.entry.function r.entry.time result out.old out.new }
{
    let n = put_again(h, request, answer, r.function, out);
    FragmentResult {
        head: Head { clock: r.time, ..h },
        answer: Ok(answer_as(r.function, n)),
        operated: control::none(),
    }
}

// ---- any other request

// What the latch is armed for, by the head's number.
fn group_in(n: u8) -> ControlGroup
    ensures { result ≡ group_in n }
{
    if n == 1 {
        ControlGroup::Crob
    } else {
        ControlGroup::AnalogOutput
    }
}

// The number of a latch that is armed for this group.
fn latch_byte(group: ControlGroup) -> u8
    ensures { (holds result ≡ true) × (group_in result ≡ group) }
{
    match group {
        ControlGroup::Crob => 1,
        ControlGroup::AnalogOutput => 2,
    }
}

// The latch of the head, with the object bytes that are lent.
fn latch_in(h: Head, objects: &[u8; ECHO_MAX]) -> Option<Selection>
    ensures { result ≡ latch_in h objects.now }
{
    if h.latch_armed == 0 {
        return None;
    }
    Some(Selection {
        group: group_in(h.latch_armed),
        sequence: ApplicationSequence(h.latch_sequence),
        time: h.latch_time,
        objects: *objects,
        len: h.latch_len,
    })
}

// What it sees of the state: the latch is loaded by value.
fn context_of(h: Head, objects: &[u8; ECHO_MAX]) -> RequestContext
    ensures { result ≡ context_in h objects.now }
{
    RequestContext {
        outputs: OutputCounts {
            relays: h.outputs,
            analog: h.analog_outputs,
        },
        arm_time: h.arm_time,
        restarted: h.restarted != 0,
        latch: latch_in(h, objects),
    }
}

// Puts the header of its answer, and says the answer's length: function 6 is never answered.
fn put_answer(
    out: &mut [u8],
    q: ApplicationSequence,
    function: u8,
    d: RequestEffect,
    held: &[u64; EVENT_WORDS],
    t: BufferStatus,
) -> usize
    requires { 4 ≤ length out.old }
    ensures { (out.new ≡ cond (eqb function 6) out.old
        (splice out.old 0 (response_of q.0 d.con (indications_of (buffer_view_in held.now t) d.restarted) d.fault)))
        × (result ≡ cond (eqb function 6) 0 d.size) }
{
    if function == 6 {
        return 0;
    }
    let s = ResponseFlags {
        fault: d.fault,
        con: d.con,
    };
    put_response_header(out, q, s, held, t, d.restarted);
    d.size
}

// The head after it: nothing is awaited, the latch is the one it leaves.
fn after_request(
    h: Head,
    objects: &mut [u8; ECHO_MAX],
    time: u64,
    restarted: bool,
    latch: Option<Selection>,
    k: LastLengths,
) -> Head
    ensures { LeftIn h time restarted None k (latch_of latch) (latch_len latch) result objects.new }
{
    let mut next = Head {
        clock: time,
        restarted: u8::from(restarted),
        waiting: 0,
        request_kept: 1,
        request_len: k.request_len,
        answer_len: k.answer_len,
        ..h
    };
    match latch {
        None => {
            *objects = [0; ECHO_MAX];
            next.latch_armed = 0;
            next.latch_sequence = 0;
            next.latch_time = 0;
            next.latch_len = 0;
            next
        }
        Some(selection) => {
            let bytes = selection.objects;
            *objects = bytes;
            next.latch_armed = latch_byte(selection.group);
            next.latch_sequence = selection.sequence.0;
            next.latch_time = selection.time;
            next.latch_len = selection.len;
            next
        }
    }
}

// Answers it, and keeps it with its answer.
fn answer_request(
    h: Head,
    held: &mut [u64; EVENT_WORDS],
    request: &mut [u8; FRAGMENT_MAX],
    answer: &mut [u8; ANSWER_MAX],
    objects: &mut [u8; ECHO_MAX],
    outputs: &[u32; ANALOG_OUTPUT_WORDS],
    r: Request<'_>,
    out: &mut [u8],
) -> FragmentResult
    requires { fragment_max ≤ length out.old }
    ensures { OtherHolds h (λ b a. record { binaries = b; analogs = a; held = held.old; request = request.old; answer = answer.old; objects = objects.old; outputs = outputs.now })
        r.entry.sequence.0 r.entry.function r.entry.time r.entry.bytes.now result
        (λ b a. record { binaries = b; analogs = a; held = held.new; request = request.new; answer = answer.new; objects = objects.new; outputs = outputs.now })
        out.old out.new }
{
    let seen = context_of(h, objects);
    let d = effects::effect_by(
        seen,
        outputs,
        r.sequence,
        r.function,
        r.time,
        &r.bytes[2..],
        out,
    );
    let t = outstation::buffer_status(h);
    event_store::clear(held, t);
    let n = put_answer(out, r.sequence, r.function, d, held, t);
    let kept = last_request::remember(request, answer, r.bytes, &out[..n]);
    FragmentResult {
        head: after_request(h, objects, r.time, d.restarted, d.latch, kept),
        answer: Ok(answer_as(r.function, n)),
        operated: d.operated,
    }
}

// ---- a fragment

// A request by its function: a READ, a repeat, or another.
fn take_request(
    h: Head,
    binaries: &[u32; BINARY_WORDS],
    analogs: &[u32; ANALOG_WORDS],
    held: &mut [u64; EVENT_WORDS],
    request: &mut [u8; FRAGMENT_MAX],
    answer: &mut [u8; ANSWER_MAX],
    objects: &mut [u8; ECHO_MAX],
    outputs: &[u32; ANALOG_OUTPUT_WORDS],
    r: Request<'_>,
    out: &mut [u8],
) -> FragmentResult
    requires { fragment_max ≤ length out.old }
    ensures { RequestHolds h (record { binaries = binaries.now; analogs = analogs.now; held = held.old; request = request.old; answer = answer.old; objects = objects.old; outputs = outputs.now })
        r.entry.sequence.0 r.entry.function r.entry.time r.entry.bytes.now result
        (record { binaries = binaries.now; analogs = analogs.now; held = held.new; request = request.new; answer = answer.new; objects = objects.new; outputs = outputs.now })
        out.old out.new }
{
    if r.function == 1 {
        return answer_read(h, binaries, analogs, held, request, answer, r, out);
    }
    if last_request::is_repeat(request, answer, last_of(h), r.bytes) {
        return repeat_request(h, request, answer, r, out);
    }
    answer_request(h, held, request, answer, objects, outputs, r, out)
}

// A fragment from the master, and the lent output for its answer.
pub fn fragment(
    h: Head,
    binaries: &[u32; BINARY_WORDS],
    analogs: &[u32; ANALOG_WORDS],
    held: &mut [u64; EVENT_WORDS],
    request: &mut [u8; FRAGMENT_MAX],
    answer: &mut [u8; ANSWER_MAX],
    objects: &mut [u8; ECHO_MAX],
    outputs: &[u32; ANALOG_OUTPUT_WORDS],
    time: u64,
    f: &[u8],
    out: &mut [u8],
) -> FragmentResult
    ensures { FragmentHolds h (record { binaries = binaries.now; analogs = analogs.now; held = held.old; request = request.old; answer = answer.old; objects = objects.old; outputs = outputs.now })
        time f.now result
        (record { binaries = binaries.now; analogs = analogs.now; held = held.new; request = request.new; answer = answer.new; objects = objects.new; outputs = outputs.now })
        out.old out.new }
{
    if outstation::bad_time(h.clock, time) {
        return refuse(h, FragmentRefusal::Time);
    }
    if out.len() < FRAGMENT_MAX {
        return refuse(h, FragmentRefusal::OutputTooSmall);
    }
    let Some(kind) = application::classify(f) else {
        return refuse(h, FragmentRefusal::Malformed);
    };
    match kind {
        Fragment::Confirm {
            sequence,
            unsolicited,
        } => take_confirm(h, held, sequence, unsolicited, time),
        Fragment::Request { sequence, function } => {
            let r = Request {
                sequence,
                function,
                time,
                bytes: f,
            };
            take_request(
                h, binaries, analogs, held, request, answer, objects, outputs, r, out,
            )
        }
    }
}
