// The receiver: pieces of any size off the wire, made into frames. What it keeps between calls is in bytes that the host lends.
#![tactic(auto)]

ghost use Rattle.std.specs.Prelude.{◌≡◌, ◌++◌, ◌+◌, ◌-◌, ◌≤◌, min, length, take, drop, eqb};
ghost use Rattle.laws.specs.Limits.{user_max, frame_max};
ghost use Rattle.frame.specs.FrameOutcome.{number_of};
ghost use Rattle.frame.specs.Frame.{read_of, refusal_of, frame_size};
ghost use Rattle.receiver.specs.Receiver.{
  rule,
  decided_by,
  ends,
  more,
  goes_over,
  kept_in,
  waiting,
  answer_of,
  kept_after,
  Checked,
  Begun,
  Meets,
  PieceReceived,
};

use frame::{FRAME_MAX, Frame, FrameRefusal};

// The bytes of a frame's header, with its check.
const HEADER: usize = 10;

// The most bytes that are kept.
pub const KEPT_MAX: usize = 291;

// What a piece comes to. No answer: the piece is used up, and nothing is decided. Else a frame, its user data in the lent output, or why there is
// none: 12 to 15 and 33. `taken` bytes of the piece were taken, up to the one that decided, and `kept` are kept, the first of the lent memory.
#[derive(Clone, Copy, Debug, PartialEq, Eq)]
pub struct Reception {
    pub answer: Option<Result<Frame, FrameRefusal>>,
    pub taken: usize,
    pub kept: usize,
}

// Refusal 11: more bytes are needed. By its name plainer than the comparison.
fn is_short(r: Result<Frame, FrameRefusal>) -> bool
    ensures { result ≡ eqb (number_of (read_of r)) 11 }
{
    r == Err(FrameRefusal::TooShort)
}

// What the rule says of the memory's first n bytes.
fn check_front(memory: &[u8; FRAME_MAX], n: usize) -> Result<Frame, FrameRefusal>
    requires { n ≤ frame_max }
    ensures { Checked result n memory.now }
{
    frame::check_frame(&memory[..n])
}

// How many bytes the memory keeps: none where they do not wait for more. Less than a header waits whatever it is.
fn kept_length(memory: &[u8; FRAME_MAX], kept: usize) -> usize
    ensures { (take result memory.now ≡ kept_in kept memory.now) × Begun result memory.now }
{
    if KEPT_MAX < kept {
        return 0;
    }
    if kept < HEADER {
        return kept;
    }
    if is_short(check_front(memory, kept)) {
        kept
    } else {
        0
    }
}

// Takes bytes of the piece behind the first `from` of the memory, until it has `to`; says how many.
fn gather(memory: &mut [u8; FRAME_MAX], from: usize, to: usize, piece: &[u8]) -> usize
    requires { (from ≤ to) × (to ≤ frame_max) }
    ensures { (result ≡ min (to - from) (length piece.now))
        × (take (from + result) memory.new ≡ take from memory.old ++ take result piece.now)
        × (length (take (from + result) memory.new) ≡ from + result) }
{
    let n = (to - from).min(piece.len());
    octets::copy(memory, from, &piece[..n]);
    n
}

// The stated size of a frame with this length byte.
fn stated_size(length: u8) -> usize
    requires { 5 ≤ length }
    ensures { (result ≡ frame_size (length - 5)) × (result ≤ frame_max) }
{
    frame::frame_size(usize::from(length) - 5)
}

// The memory's first byte is given up, and nine stay.
fn give_up_one(memory: &mut [u8; FRAME_MAX])
    ensures { take 9 memory.new ≡ drop 1 (take 10 memory.old) }
{
    memory.copy_within(1..HEADER, 0);
}

// The piece is used up: so many bytes were taken, and so many are kept.
fn waiting(taken: usize, kept: usize) -> Reception
    ensures { (answer_of result.answer ≡ waiting) × (result.taken ≡ taken) × (result.kept ≡ kept) }
{
    Reception {
        answer: None,
        taken,
        kept,
    }
}

// How many bytes are kept after a refusal: nine after 12, 13 and 14, which move on one byte, and none after 15.
fn move_on(memory: &mut [u8; FRAME_MAX], why: FrameRefusal) -> usize
    ensures { (result ≡ kept_after (refusal_of why)) × (take result memory.new ≡ take result (drop 1 memory.old)) }
{
    if let FrameRefusal::BlockCheck(_) = why {
        return 0;
    }
    give_up_one(memory);
    9
}

// Ends the call at what the rule says of the memory's first n bytes, `before` bytes being taken before the one that decided.
fn decide(
    memory: &mut [u8; FRAME_MAX],
    n: usize,
    r: Result<Frame, FrameRefusal>,
    before: usize,
    out: &mut [u8],
) -> Reception
    requires { Checked r n memory.old
        × (n ≡ decided_by (rule (take n memory.old)) (take n memory.old))
        × (user_max ≤ length out.old)
        × (before ≤ frame_max + 10) }
    ensures { Meets result (ends (before + 1) (take n memory.old)) memory.new out.old out.new }
{
    let taken = before + 1;
    match r {
        Ok(f) => {
            frame::copy_user(out, &memory[..n], f.len);
            Reception {
                answer: Some(r),
                taken,
                kept: 0,
            }
        }
        Err(why) => Reception {
            answer: Some(r),
            taken,
            kept: move_on(memory, why),
        },
    }
}

// Goes over the piece with a right header kept, `taken` bytes being taken before.
fn receive_body(
    memory: &mut [u8; FRAME_MAX],
    n: usize,
    piece: &[u8],
    taken: usize,
    out: &mut [u8],
) -> Reception
    requires { Begun n memory.old × (10 ≤ n) × (taken ≤ 10) × (user_max ≤ length out.old) }
    ensures { Meets result (more taken (goes_over (take n memory.old) piece.now)) memory.new out.old out.new }
{
    let size = stated_size(memory[2]);
    let k = gather(memory, n, size, piece);
    if n + k < size {
        return waiting(taken + k, n + k);
    }
    let r = check_front(memory, size);
    decide(memory, size, r, taken + k - 1, out)
}

// Goes over the piece.
fn receive_from(memory: &mut [u8; FRAME_MAX], n: usize, piece: &[u8], out: &mut [u8]) -> Reception
    requires { Begun n memory.old × (user_max ≤ length out.old) }
    ensures { Meets result (goes_over (take n memory.old) piece.now) memory.new out.old out.new }
{
    if HEADER <= n {
        return receive_body(memory, n, piece, 0, out);
    }
    let k = gather(memory, n, HEADER, piece);
    if n + k < HEADER {
        return waiting(k, n + k);
    }
    let r = check_front(memory, HEADER);
    if is_short(r) {
        return receive_body(memory, HEADER, &piece[k..], k, out);
    }
    decide(memory, HEADER, r, k - 1, out)
}

// Takes a piece off the wire, up to its first frame or refusal. What is kept between calls is the first `kept` bytes of the memory, both kept by the
// host, which may be in C; a frame's user data goes to the front of the lent output.
pub fn receive(memory: &mut [u8; FRAME_MAX], kept: usize, piece: &[u8], out: &mut [u8]) -> Reception
    ensures { PieceReceived result kept memory.old memory.new piece.now out.old out.new }
{
    if out.len() < frame::USER_MAX {
        return Reception {
            answer: Some(Err(FrameRefusal::OutputTooSmall)),
            taken: 0,
            kept,
        };
    }
    let n = kept_length(memory, kept);
    receive_from(memory, n, piece, out)
}
