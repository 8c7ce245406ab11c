// The transport function: segments taken into a fragment, and a fragment sent as segments.
#![tactic(auto)]

ghost use Rattle.std.specs.Prelude.{◌≡◌, ◌+◌, ◌-◌, ◌≤◌, ◌<◌, ◌%◌, length};
ghost use Rattle.laws.specs.Limits.{segment_data_max, fragment_max};
ghost use Rattle.laws.specs.Lists.{same};
ghost use Rattle.octets.specs.Bytes.{splice};
ghost use Rattle.transport.specs.Segment.{transport_header, next_sequence};
ghost use Rattle.transport.specs.Receive.{
  idle,
  last_segment,
  places,
  place_of,
  received_of,
  kept_of,
  progress_of,
  SegmentReceived,
};
ghost use Rattle.transport.specs.Send.{
  nothing_sent,
  from_of,
  end_of,
  next_segment,
  sent_of,
  written_of,
  next_sender,
  SegmentSent,
};

// The most data bytes of a segment, and the bytes of such a segment.
pub const SEGMENT_DATA_MAX: usize = 249;

pub const SEGMENT_MAX: usize = 250;

// The most bytes of a fragment.
pub const FRAGMENT_MAX: usize = 2048;

// A transport sequence number, modulo 64: a type of its own, so that it is not mixed with an application sequence. One type over the modulus would be no
// plainer: neither crate stands on the other, and it would want a crate of its own for one line.
#[derive(Clone, Copy)]
pub struct TransportSequence(pub u8);

// What is kept between segments: whether a fragment is begun; of the last segment taken its sequence, whether it had FIR, and how many bytes of data;
// and how many bytes the fragment has so far, the first of the lent bytes. No Option: a C host keeps these fields, and where nothing is begun a
// refusal gives back the others as they came (`pomarisco_segment_receive`, by `TookSegment`).
#[derive(Clone, Copy)]
pub struct Assembly {
    pub begun: bool,
    pub last: TransportSequence,
    pub last_fir: bool,
    pub last_len: usize,
    pub len: usize,
}

// Why a segment is not taken.
#[derive(Clone, Copy, Debug, PartialEq, Eq)]
pub enum SegmentRefusal {
    // 21: segment with no data, or over 249.
    SegmentLength,
    // 22: no FIR and nothing begun, or sequence not next and not the last segment heard twice. The unfinished fragment is forgotten.
    OutOfSequence,
    // 23: fragment would pass 2,048. The unfinished fragment is forgotten.
    FragmentTooLong,
    // 33: under 2,048 lent bytes.
    OutputTooSmall,
}

impl SegmentRefusal {
    ghost use Rattle.transport.specs.Receive.{segment_refusal_of};

    // Document 01's number.
    pub fn number(self) -> u8
        ensures { result ≡ segment_refusal_of self }
    {
        match self {
            SegmentRefusal::SegmentLength => 21,
            SegmentRefusal::OutOfSequence => 22,
            SegmentRefusal::FragmentTooLong => 23,
            SegmentRefusal::OutputTooSmall => 33,
        }
    }
}

// What taking a segment answers, and what is kept after it. The answer has the fragment's length where it is complete, and none where it goes on.
#[derive(Clone, Copy)]
pub struct Reception {
    pub answer: Result<Option<usize>, SegmentRefusal>,
    pub assembly: Assembly,
}

// Nothing begun: what a restart leaves.
pub fn nothing_begun() -> Assembly
    ensures { result ≡ idle }
{
    Assembly {
        begun: false,
        last: TransportSequence(0),
        last_fir: false,
        last_len: 0,
        len: 0,
    }
}

// The sequence after this one.
pub fn next_sequence(q: TransportSequence) -> TransportSequence
    ensures { result ≡ next_sequence q }
{
    TransportSequence((q.0 % 64 + 1) % 64)
}

// The segment is the last one taken in: its transport byte, and its data as it stands at the end of the bytes so far.
fn repeats(a: Assembly, segment: &[u8], lent: &[u8]) -> bool
    requires { 1 ≤ length segment.now }
    ensures { result ≡ same segment.now (last_segment a lent.now) }
{
    if segment[0] != transport_header(a.last_fir, false, a.last) {
        return false;
    }
    let to = a.len.min(lent.len());
    let from = a.len.saturating_sub(a.last_len).min(to);
    octets::equal(&segment[1..], &lent[from..to])
}

// Behind how many bytes the data of a segment without FIR goes; the last segment heard twice goes nowhere.
#[tactic(auto, unfolding(crate::specs::Receive::places))]
fn placed(a: Assembly, segment: &[u8], lent: &[u8]) -> Result<Option<usize>, SegmentRefusal>
    requires { (2 ≤ length segment.now) × (length segment.now ≤ segment_data_max + 1) }
    ensures { place_of result ≡ places a lent.now segment.now }
{
    if !a.begun {
        return Err(SegmentRefusal::OutOfSequence);
    }
    if repeats(a, segment, lent) {
        return Ok(None);
    }
    let q = next_sequence(a.last);
    if segment[0] % 64 != q.0 {
        return Err(SegmentRefusal::OutOfSequence);
    }
    let len = a.len.min(FRAGMENT_MAX);
    if FRAGMENT_MAX < len + (segment.len() - 1) {
        return Err(SegmentRefusal::FragmentTooLong);
    }
    Ok(Some(len))
}

// What is kept and answered once n bytes are in the fragment, the last m of them just now.
fn progressed(header: u8, n: usize, m: usize) -> Reception
    ensures { (result.assembly ≡ kept_of header n m) × (received_of result.answer ≡ progress_of header n) }
{
    if header / 128 % 2 == 1 {
        return Reception {
            answer: Ok(Some(n)),
            assembly: nothing_begun(),
        };
    }
    Reception {
        answer: Ok(None),
        assembly: Assembly {
            begun: true,
            last: TransportSequence(header % 64),
            last_fir: header / 64 % 2 == 1,
            last_len: m,
            len: n,
        },
    }
}

// Takes a segment into the fragment whose bytes so far are the first of the lent bytes.
#[tactic(auto, unfolding(crate::specs::Receive::receiving))]
pub fn receive(a: Assembly, segment: &[u8], out: &mut [u8]) -> Reception
    ensures { SegmentReceived result a segment.now out.old out.new }
{
    if out.len() < FRAGMENT_MAX {
        return Reception {
            answer: Err(SegmentRefusal::OutputTooSmall),
            assembly: a,
        };
    }
    if segment.len() < 2 || SEGMENT_MAX < segment.len() {
        return Reception {
            answer: Err(SegmentRefusal::SegmentLength),
            assembly: a,
        };
    }
    let header = segment[0];
    let n = segment.len() - 1;
    if header / 64 % 2 == 1 {
        octets::copy(out, 0, &segment[1..]);
        return progressed(header, n, n);
    }
    match placed(a, segment, out) {
        Ok(Some(at)) => {
            octets::copy(out, at, &segment[1..]);
            progressed(header, at + n, n)
        }
        Ok(None) => Reception {
            answer: Ok(None),
            assembly: a,
        },
        Err(why) => Reception {
            answer: Err(why),
            assembly: nothing_begun(),
        },
    }
}

// What is kept between segments sent: the next sequence, and how many bytes of the fragment were sent.
#[derive(Clone, Copy)]
pub struct Sender {
    pub next: TransportSequence,
    pub at: usize,
}

// A segment that was written: its size, and whether it is the fragment's last; two answers, both used whatever the other is.
#[derive(Clone, Copy, Debug, PartialEq, Eq)]
pub struct SentSegment {
    pub size: usize,
    pub last: bool,
}

// Why no segment is written.
#[derive(Clone, Copy, Debug, PartialEq, Eq)]
pub enum SendRefusal {
    // 16: a fragment of 0 or over 2,048 bytes.
    FragmentLength,
    // 33: under 250 lent bytes.
    OutputTooSmall,
}

impl SendRefusal {
    ghost use Rattle.transport.specs.Send.{send_refusal_of};

    // Document 01's number.
    pub fn number(self) -> u8
        ensures { result ≡ send_refusal_of self }
    {
        match self {
            SendRefusal::FragmentLength => 16,
            SendRefusal::OutputTooSmall => 33,
        }
    }
}

// What writing a segment answers, and the sender after it.
#[derive(Clone, Copy)]
pub struct Sending {
    pub answer: Result<SentSegment, SendRefusal>,
    pub sender: Sender,
}

// A sender that has sent nothing: what a restart leaves.
pub fn nothing_sent() -> Sender
    ensures { result ≡ nothing_sent }
{
    Sender {
        next: TransportSequence(0),
        at: 0,
    }
}

// The transport byte.
#[tactic(auto, unfolding(crate::specs::Segment::transport_header))]
fn transport_header(first: bool, last: bool, q: TransportSequence) -> u8
    ensures { result ≡ transport_header first last q.0 }
{
    128 * u8::from(last) + 64 * u8::from(first) + q.0 % 64
}

// Where the next segment begins: a place at or past the fragment's end begins it anew.
fn from(at: usize, n: usize) -> usize
    requires { 0 < n }
    ensures { (result ≡ from_of at n) × (result < n) }
{
    if at < n { at } else { 0 }
}

// Where the segment after one that begins here begins: after the last, at 0 again.
fn after(at: usize, n: usize) -> usize
    requires { at < n }
    ensures { result ≡ end_of at n }
{
    if n - at <= SEGMENT_DATA_MAX {
        0
    } else {
        at + SEGMENT_DATA_MAX
    }
}

// Writes the next segment of a fragment that may be sent.
fn write_segment(p: Sender, fragment: &[u8], out: &mut [u8]) -> Sending
    requires { (segment_data_max + 1 ≤ length out.old) × (0 < length fragment.now) × (length fragment.now ≤ fragment_max) }
    ensures { (sent_of result.answer ≡ written_of (next_segment p fragment.now))
        × (result.sender ≡ next_sender p fragment.now)
        × (out.new ≡ splice out.old 0 (next_segment p fragment.now)) }
{
    let n = fragment.len();
    let at = from(p.at, n);
    let e = (at + SEGMENT_DATA_MAX).min(n);
    let last = n <= at + SEGMENT_DATA_MAX;
    let h = transport_header(at == 0, last, p.next);
    out[0] = h;
    octets::copy(out, 1, &fragment[at..e]);
    Sending {
        answer: Ok(SentSegment {
            size: e - at + 1,
            last,
        }),
        sender: Sender {
            next: next_sequence(p.next),
            at: after(at, n),
        },
    }
}

// Writes the next segment of the fragment at the front of the lent bytes.
#[tactic(auto, unfolding(crate::specs::Send::sending))]
pub fn send(p: Sender, fragment: &[u8], out: &mut [u8]) -> Sending
    ensures { SegmentSent result p fragment.now out.old out.new }
{
    if out.len() < SEGMENT_MAX {
        return Sending {
            answer: Err(SendRefusal::OutputTooSmall),
            sender: p,
        };
    }
    if fragment.is_empty() || FRAGMENT_MAX < fragment.len() {
        return Sending {
            answer: Err(SendRefusal::FragmentLength),
            sender: p,
        };
    }
    write_segment(p, fragment, out)
}
