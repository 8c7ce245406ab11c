// Restart (document 01, "The cubicle's equipment"): a setup in numbers is tested while its fresh points and its analog outputs go into the lent
// words; the head then says that nothing is held, awaited, kept or selected.
#![tactic(auto)]

ghost use Rattle.std.specs.Prelude.{◌≡◌, true, [], ◌++◌, map, ◌≤◌, length, take, drop};
ghost use Rattle.laws.specs.Lists.{all};
ghost use Rattle.laws.specs.Limits.{points_max};
ghost use Rattle.points.specs.Setup.{class_ok, fresh_binary};
ghost use Rattle.analog_outputs.specs.Output.{analog_outputs_max};
ghost use Rattle.analog_outputs.specs.OutputWords.{outputs_in, output_given};
ghost use Rattle.outstation.specs.Setup.{setup_ok};
ghost use Rattle.point_store.specs.PointWords.{binaries_in, analogs_in};
ghost use Rattle.restart.specs.Restart.{analog_setup_of, given_ok, analog_given_ok, fresh_analog_of, setup_with, fresh_head, no_outstation, RestartHolds, restart_answer, Fresh};

use analog_outputs::{ANALOG_OUTPUT_WORDS, ANALOG_OUTPUTS_MAX, AnalogOutputWords};
use outstation::Head;
use point_store::{ANALOG_WORDS, BINARY_WORDS};
use points::{AnalogKind, AnalogSetup, POINTS_MAX, Scale};

// Limits of a setup.
pub const OUTPUTS_MAX: u16 = 16;

pub const ADDRESS_MAX: u16 = 65519;

pub const ARM_TIME_MAX: u32 = 64000;

pub const CONFIRM_TIME_MAX: u32 = 60000;

// What is set up beside the inputs. Of the analog outputs the first `analog_output_count` count.
#[repr(C)]
#[derive(Clone, Copy)]
pub struct SetupWords {
    pub arm_time: u32,
    pub confirm_time: u32,
    pub own: u16,
    pub master: u16,
    pub outputs: u16,
    pub analog_output_count: u16,
    pub analog_outputs: [AnalogOutputWords; ANALOG_OUTPUTS_MAX],
}

// An analog input. Kind 0: a 32-bit point; 1: a 16-bit point; any other: a float point, with a gain and an offset, the bits of floats. Gate 0: never;
// 1: any change; 2: beyond the limit; any other: summed beyond it. The limit of a float point is a float's bits.
#[repr(C)]
#[derive(Clone, Copy)]
pub struct AnalogSetupWords {
    pub limit: u32,
    pub gain: u32,
    pub offset: u32,
    pub class: u8,
    pub kind: u8,
    pub gate: u8,
}

// Refusal 5: setup breaks a limit. The head then has no points and no outputs.
#[repr(C)]
#[derive(Clone, Copy)]
pub struct Restarted {
    pub head: Head,
    pub refusal: u8,
}

impl From<AnalogSetupWords> for AnalogSetup {
    ghost from_gives = { λ w a. a ≡ analog_setup_of w };

    #[tactic(auto, unfolding(crate::specs::Restart::analog_setup_of))]
    fn from(w: AnalogSetupWords) -> AnalogSetup {
        let gate = u32::from(w.gate);
        let kind = match w.kind {
            0 => AnalogKind::Int32(point_store::gate_of(gate, w.limit)),
            1 => AnalogKind::Int16(point_store::gate_of(gate, w.limit)),
            _ => {
                let s = Scale {
                    gain: words::float(w.gain),
                    offset: words::float(w.offset),
                };
                AnalogKind::Float32(point_store::gate_of(gate, words::float(w.limit)), s)
            }
        };
        AnalogSetup {
            class: w.class,
            kind,
        }
    }
}

// Whether the limits that are tests of numbers are kept, with so many binaries and analogs.
fn limits_ok(s: SetupWords, binaries: usize, analogs: usize) -> bool
    ensures { result ≡ setup_ok (setup_with s binaries [] analogs [] []) }
{
    binaries <= POINTS_MAX
        && analogs <= POINTS_MAX
        && s.outputs <= OUTPUTS_MAX
        && usize::from(s.analog_output_count) <= ANALOG_OUTPUTS_MAX
        && s.own <= ADDRESS_MAX
        && s.master <= ADDRESS_MAX
        && s.own != s.master
        && s.arm_time <= ARM_TIME_MAX
        && 1 <= s.confirm_time
        && s.confirm_time <= CONFIRM_TIME_MAX
}

// The three that follow test and store the parts of a setup. One function over closures would be no plainer: each loop is a test and a store, and
// what they share is in their laws, `Storing`.

// Stores the fresh binaries, up to the first whose class is none.
fn fresh_binaries(binaries: &mut [u32; BINARY_WORDS], classes: &[u8]) -> bool
    requires { length classes.now ≤ points_max }
    ensures { (result ≡ all (map class_ok classes.now)) × (result ≡ true → take (length classes.now) (binaries_in binaries.new) ≡ map fresh_binary classes.now) }
{
    for (i, class) in classes.iter().enumerate() {
        if !points::class_ok(*class) {
            return false;
        }
        point_store::store_binary(binaries, i, points::fresh_binary(*class));
    }
    true
}

// Stores the analog outputs, up to the first whose ends are not allowed.
fn fresh_outputs(outputs: &mut [u32; ANALOG_OUTPUT_WORDS], given: &[AnalogOutputWords]) -> bool
    requires { length given.now ≤ analog_outputs_max }
    ensures { (result ≡ all (map given_ok given.now)) × (result ≡ true → take (length given.now) (outputs_in outputs.new) ≡ map output_given given.now) }
{
    for (i, w) in given.iter().enumerate() {
        let o = analog_outputs::output_of(u32::from(w.kind), w.low, w.high);
        if !analog_outputs::output_ok(o) {
            return false;
        }
        analog_outputs::store_output(outputs, i, *w);
    }
    true
}

// Stores the fresh analogs, up to the first whose setup breaks a limit.
fn fresh_analogs(analogs: &mut [u32; ANALOG_WORDS], setups: &[AnalogSetupWords]) -> bool
    requires { length setups.now ≤ points_max }
    ensures { (result ≡ all (map analog_given_ok setups.now)) × (result ≡ true → analogs_in analogs.new ≡ map fresh_analog_of setups.now ++ drop (length setups.now) (analogs_in analogs.old)) × (length setups.now ≡ 0 → analogs.new ≡ analogs.old) }
{
    for (i, w) in setups.iter().enumerate() {
        let a = AnalogSetup::from(*w);
        if !points::analog_ok(a) {
            return false;
        }
        point_store::store_analog(analogs, i, points::fresh_analog(a));
    }
    true
}

// The head of an outstation with so many points, just restarted.
fn fresh_head(s: SetupWords, binaries: usize, analogs: usize) -> Head
    ensures { result ≡ fresh_head s.arm_time s.confirm_time s.outputs s.analog_output_count binaries analogs }
{
    Head {
        arm_time: u64::from(s.arm_time),
        confirm_time: u64::from(s.confirm_time),
        clock: 0,
        wait_time: 0,
        latch_time: 0,
        binary_count: binaries,
        analog_count: analogs,
        event_count: 0,
        request_len: 0,
        answer_len: 0,
        latch_len: 0,
        outputs: s.outputs,
        overflow: 0,
        restarted: 1,
        waiting: 0,
        wait_sequence: 0,
        showed_overflow: 0,
        dropped_since: 0,
        request_kept: 0,
        latch_armed: 0,
        latch_sequence: 0,
        analog_outputs: s.analog_output_count,
    }
}

// A refused setup gives no outstation: its head has no points and no outputs.
fn no_outstation() -> Restarted
    ensures { result ≡ no_outstation }
{
    let none = SetupWords {
        arm_time: 0,
        confirm_time: 0,
        own: 0,
        master: 0,
        outputs: 0,
        analog_output_count: 0,
        analog_outputs: [AnalogOutputWords {
            low: 0,
            high: 0,
            kind: 0,
        }; ANALOG_OUTPUTS_MAX],
    };
    Restarted {
        head: fresh_head(none, 0, 0),
        refusal: 5,
    }
}

// A setup that breaks a limit gives no outstation. The lent words then hold what was stored up to there. The lent arrays come one by one, as C
// lends each alone: a struct of several `&mut` would have every function promise that each is still the same reference.
pub fn restart(
    s: SetupWords,
    classes: &[u8],
    setups: &[AnalogSetupWords],
    binaries: &mut [u32; BINARY_WORDS],
    analogs: &mut [u32; ANALOG_WORDS],
    outputs: &mut [u32; ANALOG_OUTPUT_WORDS],
) -> Restarted
    ensures view { RestartHolds s classes.now setups.now result.refusal result.head binaries.new analogs.new outputs.new }
    ensures answer { result ≡ restart_answer s classes.now setups.now }
    ensures words { Fresh s classes.now setups.now binaries.new analogs.old analogs.new outputs.new }
{
    if limits_ok(s, classes.len(), setups.len()) {
        let given = &s.analog_outputs[..usize::from(s.analog_output_count)];
        if fresh_binaries(binaries, classes)
            && fresh_outputs(outputs, given)
            && fresh_analogs(analogs, setups)
        {
            return Restarted {
                head: fresh_head(s, classes.len(), setups.len()),
                refusal: 0,
            };
        }
    }
    no_outstation()
}
