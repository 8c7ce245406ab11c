// What a request other than READ does, and whether a CONFIRM is accepted: worked out on the small part of the state that they see
// (document 01, "What the control room is told").
#![tactic(auto)]

ghost use Rattle.std.specs.Prelude.{◌≡◌, cond, false, ◌&&◌, not, ◌≤◌, length};
ghost use Rattle.laws.specs.Limits.{fragment_max};
ghost use Rattle.outstation.specs.Requests.{is_confirmed};
ghost use Rattle.outstation.specs.Step.{plain_effect, control_request_effect, effect_by};
ghost use Rattle.effects.specs.Effects.{EffectMeetsWith, EffectMeetsStill, Confirms, context_view, write_effect_by};

use analog_outputs::ANALOG_OUTPUT_WORDS;
use application::{ApplicationSequence, Fault};
use control::{ControlObjects, OutputCounts};
use outstation::Awaited;
use select_latch::{ControlFunction, Selection};

// What a request other than READ sees of the state, beside the analog outputs' words.
#[derive(Clone, Copy)]
pub struct RequestContext {
    pub outputs: OutputCounts,
    pub arm_time: u64,
    pub restarted: bool,
    pub latch: Option<Selection>,
}

// What a request does beside the events, before its answer is put together.
#[derive(Clone, Copy)]
pub struct RequestEffect {
    pub fault: Option<Fault>,
    pub con: bool,
    pub size: usize,
    pub operated: ControlObjects,
    pub wait: Option<Awaited>,
    pub latch: Option<Selection>,
    pub restarted: bool,
}

// ---- CONFIRM

// Whether a CONFIRM is the one awaited, and in time.
#[tactic(auto, unfolding(outstation::specs::Requests::is_confirmed))]
fn is_confirmed(
    confirm_time: u64,
    q: ApplicationSequence,
    uns: bool,
    time: u64,
    awaited: Awaited,
) -> bool
    ensures { result ≡ is_confirmed confirm_time q.0 uns time awaited.sequence.0 awaited.time }
{
    !uns && q == awaited.sequence && application::elapsed(awaited.time, time) <= confirm_time
}

// IIN2.3 after an accepted CONFIRM.
pub fn still_dropped(showed_overflow: bool, dropped_since: bool, overflow: bool) -> bool
    ensures { result ≡ cond (showed_overflow && not dropped_since) false overflow }
{
    overflow && (!showed_overflow || dropped_since)
}

// The response that a CONFIRM confirms: the one that is awaited, if the CONFIRM is accepted.
pub fn confirm(
    confirm_time: u64,
    awaited: Option<Awaited>,
    q: ApplicationSequence,
    uns: bool,
    time: u64,
) -> Option<Awaited>
    ensures { Confirms result confirm_time awaited q.0 uns time }
{
    match awaited {
        Some(a) if is_confirmed(confirm_time, q, uns, time, a) => Some(a),
        _ => None,
    }
}

// ---- what a request does

// A request without objects in its answer: it ends the wait and empties the latch.
fn plain_effect(fault: Option<Fault>, restarted: bool) -> RequestEffect
    ensures { EffectMeetsStill result (λ w. plain_effect w fault restarted) }
{
    RequestEffect {
        fault,
        con: false,
        size: 4,
        operated: control::none(),
        wait: None,
        latch: None,
        restarted,
    }
}

fn write_effect(restarted: bool, s: &[u8]) -> RequestEffect
    ensures { EffectMeetsStill result (λ w. write_effect_by w restarted s.now) }
{
    match application::write_fault(s) {
        None => plain_effect(None, false),
        Some(fault) => plain_effect(Some(fault), restarted),
    }
}

// `fragment_max ≤ length out` is a short clause, so it stands at each call on the way: a type around it would be made and opened at every one.
fn control_request_effect(
    seen: RequestContext,
    ws: &[u32; ANALOG_OUTPUT_WORDS],
    g: ControlFunction,
    q: ApplicationSequence,
    time: u64,
    s: &[u8],
    out: &mut [u8],
) -> RequestEffect
    requires { fragment_max ≤ length out.old }
    ensures { EffectMeetsWith result out.old out.new (λ k. control_request_effect (context_view seen ws.now k) g q.0 time s.now) }
{
    let c = select_latch::control_effect(
        seen.latch,
        seen.outputs,
        ws,
        seen.arm_time,
        g,
        q,
        time,
        s,
        out,
    );
    RequestEffect {
        fault: c.fault,
        con: false,
        size: 4 + c.len,
        operated: c.carried,
        wait: None,
        latch: c.latch,
        restarted: seen.restarted,
    }
}

// What a request other than READ does, by its function, of the bytes after control and function. The function is IEEE 1815's byte: any may come.
pub fn effect_by(
    seen: RequestContext,
    ws: &[u32; ANALOG_OUTPUT_WORDS],
    q: ApplicationSequence,
    function: u8,
    time: u64,
    s: &[u8],
    out: &mut [u8],
) -> RequestEffect
    requires { fragment_max ≤ length out.old }
    ensures { EffectMeetsWith result out.old out.new (λ k. effect_by (context_view seen ws.now k) q.0 function time s.now) }
{
    let f = match function {
        2 => return write_effect(seen.restarted, s),
        3 => ControlFunction::Select,
        4 => ControlFunction::Operate,
        5 => ControlFunction::DirectOperate,
        6 => ControlFunction::DirectOperateNoResponse,
        _ => return plain_effect(Some(Fault::FunctionUnknown), seen.restarted),
    };
    control_request_effect(seen, ws, f, q, time, s, out)
}
