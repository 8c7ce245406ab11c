// Analog outputs, the set points of document 02, 109: each has a kind and two allowed ends. They are kept in words that the host lends, three
// an output, as the setup gave them.
#![tactic(auto)]

ghost use Rattle.std.specs.Prelude.{◌≡◌, ◌<◌, get_or, set};
ghost use Rattle.analog_outputs.specs.Output.{analog_outputs_max, within, within_float, holds16, output_ok, takes};
ghost use Rattle.analog_outputs.specs.OutputWords.{output_of, output_given, outputs_in, no_output};

use points::Value;

// At most so many are installed.
pub const ANALOG_OUTPUTS_MAX: usize = 16;

pub const ANALOG_OUTPUT_WORDS: usize = 3 * ANALOG_OUTPUTS_MAX;

// An analog output: its kind, and the ends of the values that it takes. The ends of a 16-bit one are 32-bit numbers here, so that one which it
// cannot hold is refused, and not cut to another.
#[derive(Clone, Copy)]
pub enum AnalogOutput {
    Int32 { low: i32, high: i32 },
    Int16 { low: i32, high: i32 },
    Float32 { low: f32, high: f32 },
}

// An analog output as numbers. Kind 0: 32-bit; 1: 16-bit; any other: float, its ends the bits of floats.
#[repr(C)]
#[derive(Clone, Copy)]
pub struct AnalogOutputWords {
    pub low: u32,
    pub high: u32,
    pub kind: u8,
}

// The C interface gives the kind and the ends as numbers.
pub fn output_of(kind: u32, low: u32, high: u32) -> AnalogOutput
    ensures { result ≡ output_of kind low high }
{
    match kind {
        0 => AnalogOutput::Int32 {
            low: words::signed(low),
            high: words::signed(high),
        },
        1 => AnalogOutput::Int16 {
            low: words::signed(low),
            high: words::signed(high),
        },
        _ => AnalogOutput::Float32 {
            low: words::float(low),
            high: words::float(high),
        },
    }
}

// A whole number from the first end to the second. This and the next two have the names of their definitions, which is plainer than their bodies.
#[tactic(auto, unfolding(crate::specs::Output::within))]
fn within(low: i32, high: i32, v: i32) -> bool
    ensures { result ≡ within low high v }
{
    low <= v && v <= high
}

// A finite float from the first end to the second.
#[tactic(auto, unfolding(crate::specs::Output::within_float))]
fn within_float(low: f32, high: f32, v: f32) -> bool
    ensures { result ≡ within_float low high v }
{
    v.is_finite() && low <= v && v <= high
}

// A number that 16 bits hold.
fn holds_16(v: i32) -> bool
    ensures { result ≡ holds16 v }
{
    within(-32768, 32767, v)
}

// Whether a setup may have this output.
#[tactic(auto, unfolding(crate::specs::Output::output_ok))]
pub fn output_ok(o: AnalogOutput) -> bool
    ensures { result ≡ output_ok o }
{
    match o {
        AnalogOutput::Int32 { low, high } => low <= high,
        AnalogOutput::Int16 { low, high } => holds_16(low) && holds_16(high) && low <= high,
        AnalogOutput::Float32 { low, high } => {
            low.is_finite() && high.is_finite() && low <= high
        }
    }
}

// Whether an output takes this value: it is of the output's kind, and not outside the ends.
#[tactic(auto, unfolding(crate::specs::Output::takes))]
pub fn takes(o: AnalogOutput, v: Value) -> bool
    ensures { result ≡ takes o v }
{
    match (o, v) {
        (AnalogOutput::Int32 { low, high }, Value::Int32(x)) => within(low, high, x),
        (AnalogOutput::Int16 { low, high }, Value::Int16(x)) => within(low, high, i32::from(x)),
        (AnalogOutput::Float32 { low, high }, Value::Float32(x)) => within_float(low, high, x),
        _ => false,
    }
}

// The i-th output, installed or not.
pub fn load_output(ws: &[u32; ANALOG_OUTPUT_WORDS], i: usize) -> AnalogOutput
    requires { i < analog_outputs_max }
    ensures { result ≡ get_or (outputs_in ws.now) i no_output }
{
    let at = 3 * i;
    output_of(ws[at], ws[at + 1], ws[at + 2])
}

// Stores the i-th output, its words as they were given.
pub fn store_output(ws: &mut [u32; ANALOG_OUTPUT_WORDS], i: usize, w: AnalogOutputWords)
    requires { i < analog_outputs_max }
    ensures { outputs_in ws.new ≡ set (outputs_in ws.old) i (output_given w) }
{
    let at = 3 * i;
    ws[at] = u32::from(w.kind);
    ws[at + 1] = w.low;
    ws[at + 2] = w.high;
}
