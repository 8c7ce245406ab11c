// The objects to be carried out as plain numbers, for a host in C: relays' and analog outputs' in an array of their own, so that neither is taken
// for the other.
#![tactic(auto)]

ghost use Rattle.std.specs.Prelude.{◌≡◌, Bool, map, length, take};
ghost use Rattle.std.proofs.Math.Option.{Option, some};
ghost use Rattle.laws.specs.Lists.{filter};
ghost use Rattle.control.specs.Objects.{is_crob, is_analog_output, list_of};
ghost use Rattle.control.specs.declared.ControlObject.{ControlObject};
ghost use Rattle.control_words.specs.Operated.{crob_object, asked, analog_object, StandsFor, CrobsAs, AnalogCommandsAs, OperatedAs};

use control::{Command, ControlObject, ControlObjects, Crob, OBJECTS_MAX};
use points::Value;

// A control relay output block with its index. The status is the request's, as it came.
#[repr(C)]
#[derive(Clone, Copy)]
pub struct CrobWords {
    pub on_time: u32,
    pub off_time: u32,
    pub index: u16,
    pub code: u8,
    pub count: u8,
    pub status: u8,
}

// The first `count`, in the order asked.
#[repr(C)]
#[derive(Clone, Copy)]
pub struct CrobsWords {
    pub items: [CrobWords; OBJECTS_MAX],
    pub count: usize,
}

// A value for the analog output with this index. Kind 0: 32-bit; 1: 16-bit, both the bits of an i32; 2: a float's bits.
#[repr(C)]
#[derive(Clone, Copy)]
pub struct AnalogCommandWords {
    pub bits: u32,
    pub index: u16,
    pub kind: u8,
    pub status: u8,
}

// The first `count`, in the order asked.
#[repr(C)]
#[derive(Clone, Copy)]
pub struct AnalogCommandsWords {
    pub items: [AnalogCommandWords; OBJECTS_MAX],
    pub count: usize,
}

// What is to be carried out.
#[repr(C)]
#[derive(Clone, Copy)]
pub struct OperatedWords {
    pub crobs: CrobsWords,
    pub analog_commands: AnalogCommandsWords,
}

fn crob_words(index: u16, status: u8, x: Crob) -> CrobWords
    ensures { crob_object result ≡ record { index = index; status = status; command = Command.Crob x } }
{
    CrobWords {
        on_time: x.on_time,
        off_time: x.off_time,
        index,
        code: x.code,
        count: x.count,
        status,
    }
}

fn analog_words(index: u16, status: u8, v: Value) -> AnalogCommandWords
    ensures { analog_object result ≡ some (asked index status v) }
{
    match v {
        Value::Int32(z) => AnalogCommandWords {
            bits: words::signed_bits(z),
            index,
            kind: 0,
            status,
        },
        Value::Int16(z) => AnalogCommandWords {
            bits: words::signed_bits(i32::from(z)),
            index,
            kind: 1,
            status,
        },
        Value::Float32(x) => AnalogCommandWords {
            bits: words::float_bits(x),
            index,
            kind: 2,
            status,
        },
    }
}

// Numbers that stand for objects of one kind.
trait ObjectWords: Copy {
    ghost object_of: { Self → Option ControlObject };

    ghost is_kind: { ControlObject → Bool };

    // No object's.
    fn none() -> Self;

    // An object's, if it is of this kind.
    fn of(c: ControlObject) -> Option<Self>
        ensures { StandsFor object_of is_kind c result };
}

impl ObjectWords for CrobWords {
    ghost object_of = { λ w. some (crob_object w) };

    ghost is_kind = { is_crob };

    fn none() -> CrobWords {
        CrobWords {
            on_time: 0,
            off_time: 0,
            index: 0,
            code: 0,
            count: 0,
            status: 0,
        }
    }

    fn of(c: ControlObject) -> Option<CrobWords> {
        match c.command {
            Command::Crob(x) => Some(crob_words(c.index, c.status, x)),
            Command::AnalogOutput(_) => None,
        }
    }
}

impl ObjectWords for AnalogCommandWords {
    ghost object_of = { analog_object };

    ghost is_kind = { is_analog_output };

    fn none() -> AnalogCommandWords {
        AnalogCommandWords {
            bits: 0,
            index: 0,
            kind: 0,
            status: 0,
        }
    }

    fn of(c: ControlObject) -> Option<AnalogCommandWords> {
        match c.command {
            Command::Crob(_) => None,
            Command::AnalogOutput(v) => Some(analog_words(c.index, c.status, v)),
        }
    }
}

// The objects of one kind, in the order asked, and how many they are. `count` counts beside the `for`, since they move down: no plainer.
fn taken<W: ObjectWords>(cs: ControlObjects) -> ([W; OBJECTS_MAX], usize)
    ensures { (map W.object_of (take result.1 result.0) ≡ map some (filter W.is_kind (list_of cs)))
        × (result.1 ≡ length (filter W.is_kind (list_of cs))) }
{
    let n = cs.count.min(OBJECTS_MAX);
    let mut items = [W::none(); OBJECTS_MAX];
    let mut count = 0;
    for &c in &cs.items[..n] {
        if let Some(w) = W::of(c) {
            items[count] = w;
            count += 1;
        }
    }
    (items, count)
}

// Those for relays: C's struct, as the next is, so there are two of these.
fn crobs_of(cs: ControlObjects) -> CrobsWords
    ensures { CrobsAs result (filter is_crob (list_of cs)) }
{
    let (items, count) = taken(cs);
    CrobsWords { items, count }
}

// Those for analog outputs.
fn analog_commands_of(cs: ControlObjects) -> AnalogCommandsWords
    ensures { AnalogCommandsAs result (filter is_analog_output (list_of cs)) }
{
    let (items, count) = taken(cs);
    AnalogCommandsWords { items, count }
}

// All of them.
pub fn operated_words(cs: ControlObjects) -> OperatedWords
    ensures { OperatedAs result (list_of cs) }
{
    OperatedWords {
        crobs: crobs_of(cs),
        analog_commands: analog_commands_of(cs),
    }
}
