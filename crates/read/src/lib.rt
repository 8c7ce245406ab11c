// A READ's answer from lent words: its objects are put into lent bytes behind the first four, and the events that it carries are marked in
// place.
#![tactic(auto)]

ghost use Rattle.std.specs.Prelude.{◌≡◌, ◌||◌, List, ◌++◌, ℕ, ◌+◌, ◌≤◌, length};
ghost use Rattle.laws.specs.Limits.{fragment_max};
ghost use Rattle.octets.specs.Bytes.{splice};
ghost use Rattle.read_headers.specs.Parse.{fault_in, is_class};
ghost use Rattle.point_store.specs.PointWords.{points_view_in};
ghost use Rattle.event_store.specs.EventWords.{buffer_view_in};
ghost use Rattle.event_objects.specs.Events.{carried_bytes};
ghost use Rattle.static_objects.specs.Static.{asked_of};
ghost use Rattle.read.specs.Response.{request_of, static_part, RepliedAs};

use application::{FRAGMENT_MAX, Fault};
use event_store::{BufferStatus, EVENT_WORDS};
use events::Classes;
use point_store::{ANALOG_WORDS, Installed};
use read_headers::HEADERS_MAX;
use static_objects::Points;

// The bytes of a response's objects: 2,048 less the four bytes in front of them.
const RESPONSE_OBJECTS_MAX: usize = FRAGMENT_MAX - 4;

// The fault of the READ, where it has one, and the size of the response. No `Result`: a READ with a fault is answered too, with a size of 4,
// and `RepliedAs` says both in either case.
#[derive(Clone, Copy, Debug, PartialEq, Eq)]
pub struct Reply {
    pub fault: Option<Fault>,
    pub size: usize,
}

// What is known of a faultless READ before it is answered: the bytes of its static part and its event classes.
#[derive(Clone, Copy)]
struct ReadRequest {
    size: usize,
    classes: Classes,
}

// The classes, and the one that a header asks for. Not shared with event_store's `classes_pending`, which notes a plain number in three flags,
// each with its own part of the invariant: a method for both would be no plainer.
fn with_class(m: Classes, class: Option<u8>) -> Classes
    ensures { (result.one ≡ (m.one || is_class 1 class))
        × (result.two ≡ (m.two || is_class 2 class))
        × (result.three ≡ (m.three || is_class 3 class)) }
{
    Classes {
        one: m.one || class == Some(1),
        two: m.two || class == Some(2),
        three: m.three || class == Some(3),
    }
}

// What a READ asks for, of the bytes after control and function. Its headers are not kept: put_static reads them again. No binary is read
// for it, so it is the same whatever their words are: (b : List ℕ) → …
fn asked(s: &[u8], analogs: &[u32; ANALOG_WORDS], n: Installed) -> Result<ReadRequest, Fault>
    ensures { (b : List ℕ) → result ≡
        request_of (points_view_in n b analogs.now) (asked_of (points_view_in n b analogs.now) s.now) }
{
    let binary_count = points::installed(n.binaries) as u16;
    let analog_count = points::installed(n.analogs) as u16;
    let mut classes = Classes {
        one: false,
        two: false,
        three: false,
    };
    let mut size: usize = 0;
    let mut rest = s;
    'headers: for _ in 0..HEADERS_MAX {
        if rest.is_empty() {
            break;
        }
        let front = read_headers::front_header(rest, binary_count, analog_count)?;
        size += static_objects::header_size(front.header, analogs, n);
        classes = with_class(classes, front.header.class);
        rest = &rest[front.size..];
    }
    if !rest.is_empty() || FRAGMENT_MAX < size + 4 {
        return Err(Fault::BadParameter);
    }
    Ok(ReadRequest { size, classes })
}

// Puts the static part of a READ that `asked` found faultless at the offset, and answers the offset after it. No fault is met again before
// the end of the bytes.
fn put_static(out: &mut [u8], at: usize, s: &[u8], points: Points<'_>) -> usize
    requires { (fault_in (asked_of (points_view_in points.installed points.binaries.now points.analogs.now) s.now) ≡ None)
        × (at + length (static_part (points_view_in points.installed points.binaries.now points.analogs.now) s.now) ≤ length out.old) }
    ensures { (result ≡ at + length (static_part (points_view_in points.entry.installed points.entry.binaries.now points.entry.analogs.now) s.now))
        × (out.new ≡ splice out.old at (static_part (points_view_in points.entry.installed points.entry.binaries.now points.entry.analogs.now) s.now)) }
{
    let binary_count = points::installed(points.installed.binaries) as u16;
    let analog_count = points::installed(points.installed.analogs) as u16;
    let mut to = at;
    let mut rest = s;
    while let Ok(front) = read_headers::front_header(rest, binary_count, analog_count) {
        to = static_objects::put_header(out, to, front.header, points);
        rest = &rest[front.size..];
    }
    to
}

// Puts the carried events and then the static part of a faultless READ behind the first four bytes, and answers the offset after them.
fn put_objects(
    out: &mut [u8],
    s: &[u8],
    points: Points<'_>,
    held: &[u64; EVENT_WORDS],
    status: BufferStatus,
) -> usize
    requires { (fault_in (asked_of (points_view_in points.installed points.binaries.now points.analogs.now) s.now) ≡ None)
        × (4 + length (carried_bytes (buffer_view_in held.now status).held)
        + length (static_part (points_view_in points.installed points.binaries.now points.analogs.now) s.now) ≤ length out.old) }
    ensures { (result ≡ 4 + length (carried_bytes (buffer_view_in held.now status).held ++ static_part (points_view_in points.entry.installed points.entry.binaries.now points.entry.analogs.now) s.now))
        × (out.new ≡ splice out.old 4 (carried_bytes (buffer_view_in held.now status).held ++ static_part (points_view_in points.entry.installed points.entry.binaries.now points.entry.analogs.now) s.now)) }
{
    let to = event_objects::put_events(out, 4, held, status);
    put_static(out, to, s, points)
}

// Answers a READ, of the bytes after control and function.
pub fn respond(
    out: &mut [u8],
    s: &[u8],
    points: Points<'_>,
    held: &mut [u64; EVENT_WORDS],
    status: BufferStatus,
) -> Reply
    requires { fragment_max ≤ length out.old }
    ensures { RepliedAs (points_view_in points.entry.installed points.entry.binaries.now points.entry.analogs.now) s.now (buffer_view_in held.old status) out.old result
        (buffer_view_in held.new status) out.new }
{
    match asked(s, points.analogs, points.installed) {
        Ok(request) => {
            event_store::mark_carried(
                held,
                status,
                request.classes,
                RESPONSE_OBJECTS_MAX - request.size,
            );
            let size = put_objects(out, s, points, held, status);
            Reply { fault: None, size }
        }
        Err(fault) => {
            event_store::clear(held, status);
            Reply {
                fault: Some(fault),
                size: 4,
            }
        }
    }
}
