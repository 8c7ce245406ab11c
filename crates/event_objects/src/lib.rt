// The events that a response carries, written from lent words into lent bytes.
#![tactic(auto)]

ghost use Rattle.std.specs.Prelude.{◌≡◌, map, ◌+◌, ◌≤◌, length};
ghost use Rattle.std.proofs.Math.Seq.{slice};
ghost use Rattle.laws.specs.Limits.{events_max};
ghost use Rattle.octets.specs.Bytes.{splice};
ghost use Rattle.events.specs.Placing.{kind_number};
ghost use Rattle.event_store.specs.EventWords.{slots_in, buffer_view_in};
ghost use Rattle.event_objects.specs.Events.{
  event_group,
  event_variation,
  event_heading,
  event_bytes,
  carried_kind,
  lead_kind,
  carried_bytes,
};

use event_store::{BufferStatus, EVENT_WORDS};
use events::{Event, EventKind, Held, Shown};

fn group(kind: EventKind) -> u8
    ensures { result ≡ event_group (kind_number kind) }
{
    match kind {
        EventKind::Binary => 2,
        EventKind::Int32 | EventKind::Int16 | EventKind::Float32 => 32,
    }
}

fn variation(kind: EventKind) -> u8
    ensures { result ≡ event_variation (kind_number kind) }
{
    match kind {
        EventKind::Binary => 2,
        EventKind::Int32 => 3,
        EventKind::Int16 => 4,
        EventKind::Float32 => 7,
    }
}

// Puts a header at the offset, and answers the offset after it. `out` and `at` travel together: each writer says `splice out at ..`, and one law
// joins that with the next.
fn put_heading(out: &mut [u8], at: usize, kind: EventKind, n: u16) -> usize
    requires { at + 5 ≤ length out.old }
    ensures { (result ≡ at + 5) × (out.new ≡ splice out.old at (event_heading (kind_number kind) 0 n)) }
{
    out[at] = group(kind);
    out[at + 1] = variation(kind);
    out[at + 2] = 40;
    octets::put2(out, at + 3, n);
    at + 5
}

// Puts an event's object at the offset, and answers the offset after it.
fn put_event(out: &mut [u8], at: usize, e: Event) -> usize
    requires { at + length (event_bytes e) ≤ length out.old }
    ensures { (result ≡ at + length (event_bytes e))
        × (out.new ≡ splice out.old at (event_bytes e)) }
{
    octets::put2(out, at, e.point);
    match e.shown {
        Shown::State(on) => {
            out[at + 2] = objects::state_byte(on, e.flags);
            octets::put(out, at + 3, 6, e.time);
            at + 9
        }
        Shown::Analog(v) => {
            out[at + 2] = e.flags;
            let to = objects::put_value(out, at + 3, v);
            octets::put(out, to, 6, e.time);
            to + 6
        }
    }
}

// The kind of a held event, unless it is not carried.
fn carried_kind(h: Held) -> Option<EventKind>
    ensures { result ≡ carried_kind h }
{
    if h.carried {
        Some(events::kind(h.event))
    } else {
        None
    }
}

// How many of the kind follow one another from a place on, up to another, those that are not carried passed over.
fn run_length(held: &[u64; EVENT_WORDS], from: usize, to: usize, kind: EventKind) -> u16
    requires { to ≤ events_max }
    ensures { (result ≡ lead_kind kind (slice from to (map carried_kind (slots_in held.now)))) × (result ≤ events_max) }
{
    let mut m: u16 = 0;
    for i in from..to {
        if let Some(k) = carried_kind(event_store::load(held, i)) {
            if k != kind {
                return m;
            }
            m += 1;
        }
    }
    m
}

// Puts the carried events at the offset, and answers the offset after them.
pub fn put_events(
    out: &mut [u8],
    at: usize,
    held: &[u64; EVENT_WORDS],
    status: BufferStatus,
) -> usize
    requires { at + length (carried_bytes (buffer_view_in held.now status).held) ≤ length out.old }
    ensures { (result ≡ at + length (carried_bytes (buffer_view_in held.now status).held))
        × (out.new ≡ splice out.old at (carried_bytes (buffer_view_in held.now status).held)) }
{
    let n = events::filled(status.count);
    let mut to = at;
    let mut last = None;
    for i in 0..n {
        if event_store::carried_at(held, i) {
            let e = event_store::load(held, i).event;
            let k = events::kind(e);
            if last == Some(k) {
                to = put_event(out, to, e);
            } else {
                let m = run_length(held, i + 1, n, k);
                let after = put_heading(out, to, k, m + 1);
                to = put_event(out, after, e);
                last = Some(k);
            }
        }
    }
    to
}
