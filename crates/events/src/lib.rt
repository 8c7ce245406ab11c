// Events: what is held of each, and what the selection of a response does with it.
#![tactic(auto)]

ghost use Rattle.std.specs.Prelude.{◌≡◌, min, ◌≤◌, cond, leb};
ghost use Rattle.laws.specs.Limits.{events_max};
ghost use Rattle.events.specs.Placing.{kind_of, last_number, object_size, is_asked, cost_of, place_event};

use points::Value;

// How many events may be held.
pub const CAPACITY: usize = 256;

// What an event shows: a binary's state, or an analog's value.
#[derive(Clone, Copy)]
pub enum Shown {
    State(bool),
    Analog(Value),
}

// An event: its reading's time, what it shows, its point, the shown flags without the state, its point's class.
#[derive(Clone, Copy)]
pub struct Event {
    pub time: u64,
    pub shown: Shown,
    pub point: u16,
    pub flags: u8,
    pub class: u8,
}

// A held event; carried: it is in the response that awaits confirmation. A mark of the event, and no case of it: the event is the same with and without.
#[derive(Clone, Copy)]
pub struct Held {
    pub event: Event,
    pub carried: bool,
}

// Classes 1 to 3: those that a request asks for, or of which events are left behind.
#[derive(Clone, Copy)]
pub struct Classes {
    pub one: bool,
    pub two: bool,
    pub three: bool,
}

// The kinds of events' objects: a binary's state, or an analog's value.
#[derive(Clone, Copy, PartialEq, Eq)]
pub enum EventKind {
    Binary,
    Int32,
    Int16,
    Float32,
}

impl EventKind {
    // The kind of a number, 1 to 4; 0 and any other are no kind's. For whoever keeps the last event's kind as a number.
    pub fn numbered(n: u8) -> Option<EventKind>
        ensures { last_number result ≡ cond (leb n 4) n 0 }
    {
        match n {
            1 => Some(EventKind::Binary),
            2 => Some(EventKind::Int32),
            3 => Some(EventKind::Int16),
            4 => Some(EventKind::Float32),
            _ => None,
        }
    }
}

// A response as it is filled: the bytes left for events, and the kind of the last event.
#[derive(Clone, Copy)]
pub struct Space {
    pub left: usize,
    pub kind: Option<EventKind>,
}

// How many slots hold an event.
// As `points::installed` with another limit: one function for both would be no plainer than `min`.
pub fn filled(count: usize) -> usize
    ensures { result ≡ min count events_max }
{
    count.min(CAPACITY)
}

// Whether events of the class are asked for.
fn is_asked(m: Classes, class: u8) -> bool
    ensures { result ≡ is_asked m class }
{
    match class {
        1 => m.one,
        2 => m.two,
        3 => m.three,
        _ => false,
    }
}

// The kind of an event's object.
pub fn kind(e: Event) -> EventKind
    ensures { result ≡ kind_of e }
{
    match e.shown {
        Shown::State(_) => EventKind::Binary,
        Shown::Analog(Value::Int32(_)) => EventKind::Int32,
        Shown::Analog(Value::Int16(_)) => EventKind::Int16,
        Shown::Analog(Value::Float32(_)) => EventKind::Float32,
    }
}

// The bytes of an event's object with its index.
fn size(kind: EventKind) -> usize
    ensures { (result ≡ object_size kind) × (result ≤ 13) }
{
    match kind {
        EventKind::Binary => 9,
        EventKind::Int16 => 11,
        EventKind::Int32 | EventKind::Float32 => 13,
    }
}

// The bytes that an event takes: with a header where its kind is not the last one's.
fn cost(k: Space, kind: EventKind) -> usize
    ensures { (result ≡ cost_of k kind) × (result ≤ 18) }
{
    let n = size(kind);
    if k.kind == Some(kind) { n } else { n + 5 }
}

// What the selection does with an event: passes it over, stops, or carries it.
#[derive(Clone, Copy)]
pub enum Placement {
    Pass,
    Stop,
    Carry(Space),
}

pub fn place_event(m: Classes, k: Space, e: Event) -> Placement
    ensures { result ≡ place_event m k e }
{
    if is_asked(m, e.class) {
        let n = kind(e);
        let need = cost(k, n);
        if k.left < need {
            return Placement::Stop;
        }
        Placement::Carry(Space {
            left: k.left - need,
            kind: Some(n),
        })
    } else {
        Placement::Pass
    }
}
