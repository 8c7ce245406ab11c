// The static part of a response for one header of a READ: its size, and its bytes, written from points in lent words into lent bytes.
#![tactic(auto)]

ghost use Rattle.std.specs.Prelude.{◌≡◌, List, ℕ, ◌+◌, ◌*◌, ◌≤◌, ◌<◌, length};
ghost use Rattle.octets.specs.Bytes.{splice};
ghost use Rattle.points.specs.PointsView.{PointsView};
ghost use Rattle.objects.specs.Runs.{object_bytes};
ghost use Rattle.point_store.specs.PointWords.{points_view_in};
ghost use Rattle.static_objects.specs.Static.{
  static_group,
  static_variation,
  point_bytes,
  static_heading,
  shown_at,
  point_objects,
  range_bytes,
  header_bytes,
};
ghost use Rattle.static_objects.specs.Alone.{binaries_alone, analogs_alone};
ghost use Rattle.static_objects.specs.Running.{run_place, run_heading, RunFits};

use point_store::{ANALOG_WORDS, BINARY_WORDS, Installed};
use points::Value;
use read_headers::{Header, PointKind};

// The points that the host lends: their words, and how many are installed. Counts beside arrays, since the host lends the arrays.
#[derive(Clone, Copy)]
pub struct Points<'a> {
    pub binaries: &'a [u32; BINARY_WORDS],
    pub analogs: &'a [u32; ANALOG_WORDS],
    pub installed: Installed,
}

// What a point shows: a binary's flags with its state, or an analog's flags and value.
#[derive(Clone, Copy)]
enum ShownPoint {
    Binary(u8),
    Analog(u8, Value),
}

// Analogs of one variation that follow one another: the place of their header, their variation, the first one's index, and how many follow it.
#[derive(Clone, Copy)]
struct Run {
    at: usize,
    variation: u8,
    first: usize,
    more: usize,
}

// ---- one point, and one header

// Each kind of points has its group of objects.
fn group(kind: PointKind) -> u8
    ensures { result ≡ static_group kind }
{
    match kind {
        PointKind::Binary => 1,
        PointKind::Analog => 30,
    }
}

fn variation(s: ShownPoint) -> u8
    ensures { result ≡ static_variation s }
{
    match s {
        ShownPoint::Binary(_) => 2,
        ShownPoint::Analog(_, v) => match v {
            Value::Int32(_) => 1,
            Value::Int16(_) => 2,
            Value::Float32(_) => 5,
        },
    }
}

// The bytes of what a point shows.
fn size(s: ShownPoint) -> usize
    ensures { (result ≡ length (point_bytes s)) × (result ≤ 5) }
{
    match s {
        ShownPoint::Binary(_) => 1,
        ShownPoint::Analog(_, v) => match v {
            Value::Int32(_) => 5,
            Value::Int16(_) => 3,
            Value::Float32(_) => 5,
        },
    }
}

// Puts a header of the point `first` and m more at the offset, and answers the offset after it. `out` and `at` travel together: each writer says
// `splice out at ..`, and one law joins that with the next.
fn put_heading(
    out: &mut [u8],
    at: usize,
    kind: PointKind,
    variation: u8,
    first: usize,
    m: usize,
) -> usize
    requires { (at + 7 ≤ length out.old) × (first + m < 200000) }
    ensures { (result ≡ at + 7)
        × (out.new ≡ splice out.old at (static_heading kind variation first (m + 1))) }
{
    out[at] = group(kind);
    out[at + 1] = variation;
    out[at + 2] = 1;
    octets::put(out, at + 3, 2, first as u64);
    octets::put(out, at + 5, 2, (first + m) as u64);
    at + 7
}

// Puts what a point shows at the offset, and answers the offset after it.
fn put_point(out: &mut [u8], at: usize, s: ShownPoint) -> usize
    requires { at + length (point_bytes s) ≤ length out.old }
    ensures { (result ≡ at + length (point_bytes s))
        × (out.new ≡ splice out.old at (point_bytes s)) }
{
    match s {
        ShownPoint::Binary(flags) => {
            out[at] = flags;
            at + 1
        }
        ShownPoint::Analog(flags, v) => {
            out[at] = flags;
            objects::put_value(out, at + 1, v)
        }
    }
}

// ---- what the i-th point shows, of so many installed: a binary and an analog each by its own words, load and variant, so that one function
// over both would be no plainer

fn binary_shown(ws: &[u32; BINARY_WORDS], count: usize, i: usize) -> ShownPoint
    ensures { result ≡ shown_at (binaries_alone count ws.now) PointKind.Binary i }
{
    if i < points::installed(count) {
        let b = point_store::load_binary(ws, i);
        ShownPoint::Binary(objects::state_byte(b.state, b.flags))
    } else {
        ShownPoint::Binary(0)
    }
}

fn analog_shown(ws: &[u32; ANALOG_WORDS], count: usize, i: usize) -> ShownPoint
    ensures { result ≡ shown_at (analogs_alone count ws.now) PointKind.Analog i }
{
    if i < points::installed(count) {
        let a = point_store::load_shown(ws, i);
        ShownPoint::Analog(a.flags, a.value)
    } else {
        ShownPoint::Analog(0, Value::Int32(0))
    }
}

// ---- binaries: all of one variation, so one header

// The bytes that n binaries take.
fn binaries_size(n: usize) -> usize
    requires { n < 200000 }
    ensures { ((i : PointsView) (from : ℕ) → result ≡ length (range_bytes i PointKind.Binary from n)) × (result ≤ 7 + n) }
{
    if n == 0 { 0 } else { 7 + n }
}

// Puts the bytes of n binaries from `from` on at the offset, with no header. The words are C's, and the three numbers go by value: a struct of them
// would be made and opened at every call.
fn put_states(
    out: &mut [u8],
    at: usize,
    ws: &[u32; BINARY_WORDS],
    count: usize,
    from: usize,
    n: usize,
)
    requires { (at + n ≤ length out.old) × (from + n < 200000) }
    ensures { out.new ≡
        splice out.old at (object_bytes (point_objects (binaries_alone count ws.now) PointKind.Binary from n)) }
{
    let mut to = at;
    for i in from..from + n {
        to = put_point(out, to, binary_shown(ws, count, i));
    }
}

// Puts n binaries from `from` on at the offset, and answers the offset after them.
fn put_binaries(
    out: &mut [u8],
    at: usize,
    ws: &[u32; BINARY_WORDS],
    count: usize,
    from: usize,
    n: usize,
) -> usize
    requires { (at + length (range_bytes (binaries_alone count ws.now) PointKind.Binary from n) ≤ length out.old)
        × (from + n < 200000) }
    ensures { (result ≡ at + length (range_bytes (binaries_alone count ws.now) PointKind.Binary from n))
        × (out.new ≡ splice out.old at (range_bytes (binaries_alone count ws.now) PointKind.Binary from n)) }
{
    if n == 0 {
        return at;
    }
    let to = put_heading(out, at, PointKind::Binary, 2, from, n - 1);
    put_states(out, to, ws, count, from, n);
    to + n
}

// ---- analogs: a header where the variation changes

// The bytes that n analogs from `from` on take.
fn analogs_size(ws: &[u32; ANALOG_WORDS], count: usize, from: usize, n: usize) -> usize
    requires { from + n < 200000 }
    ensures { (result ≡ length (range_bytes (analogs_alone count ws.now) PointKind.Analog from n)) × (result ≤ 12 * n) }
{
    let mut total = 0;
    let mut last = None;
    for i in from..from + n {
        let s = analog_shown(ws, count, i);
        let k = variation(s);
        if last != Some(k) {
            total += 7;
            last = Some(k);
        }
        total += size(s);
    }
    total
}

// Puts the header of a run that ends.
fn end_run(out: &mut [u8], run: Option<Run>)
    requires { RunFits run (length out.old) }
    ensures { out.new ≡ splice out.old (run_place run) (run_heading run) }
{
    if let Some(r) = run {
        put_heading(out, r.at, PointKind::Analog, r.variation, r.first, r.more);
    }
}

// Puts n analogs from `from` on at the offset, and answers the offset after them. A header holds the last index of its run, so its
// place is left free until the run ends.
fn put_analogs(
    out: &mut [u8],
    at: usize,
    ws: &[u32; ANALOG_WORDS],
    count: usize,
    from: usize,
    n: usize,
) -> usize
    requires { (at + length (range_bytes (analogs_alone count ws.now) PointKind.Analog from n) ≤ length out.old)
        × (from + n < 200000) }
    ensures { (result ≡ at + length (range_bytes (analogs_alone count ws.now) PointKind.Analog from n))
        × (out.new ≡ splice out.old at (range_bytes (analogs_alone count ws.now) PointKind.Analog from n)) }
{
    let mut to = at;
    let mut run: Option<Run> = None;
    for i in from..from + n {
        let s = analog_shown(ws, count, i);
        let k = variation(s);
        match run {
            Some(r) if r.variation == k => {
                to = put_point(out, to, s);
                run = Some(Run {
                    more: r.more + 1,
                    ..r
                });
            }
            _ => {
                end_run(out, run);
                run = Some(Run {
                    at: to,
                    variation: k,
                    first: i,
                    more: 0,
                });
                to = put_point(out, to + 7, s);
            }
        }
    }
    end_run(out, run);
    to
}

// ---- a header of a request

// The bytes that a header takes. A size reads no binary, and is the same whatever their words are: (b : List ℕ) → …
pub fn header_size(h: Header, analogs: &[u32; ANALOG_WORDS], n: Installed) -> usize
    ensures { ((b : List ℕ) → result ≡ length (header_bytes (points_view_in n b analogs.now) h)) × (result ≤ 1600000) }
{
    let binary_bytes = binaries_size(h.binaries as usize);
    let analog_bytes = analogs_size(analogs, n.analogs, h.analog as usize, h.analogs as usize);
    binary_bytes + analog_bytes
}

// Puts what a header asks for at the offset, and answers the offset after it.
pub fn put_header(out: &mut [u8], at: usize, h: Header, points: Points<'_>) -> usize
    requires { at + length (header_bytes (points_view_in points.installed points.binaries.now points.analogs.now) h) ≤ length out.old }
    ensures { (result ≡ at + length (header_bytes (points_view_in points.entry.installed points.entry.binaries.now points.entry.analogs.now) h))
        × (out.new ≡ splice out.old at (header_bytes (points_view_in points.entry.installed points.entry.binaries.now points.entry.analogs.now) h)) }
{
    let to = put_binaries(
        out,
        at,
        points.binaries,
        points.installed.binaries,
        h.binary as usize,
        h.binaries as usize,
    );
    put_analogs(
        out,
        to,
        points.analogs,
        points.installed.analogs,
        h.analog as usize,
        h.analogs as usize,
    )
}
