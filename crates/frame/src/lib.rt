// Link frames: written into lent bytes, and read back from bytes.
#![tactic(auto)]

ghost use Rattle.std.specs.Prelude.{◌≡◌, ◌+◌, ◌*◌, ◌-◌, ◌≤◌, ◌<◌, length, get_or, MatchOption};
ghost use Rattle.laws.specs.Limits.{user_max};
ghost use Rattle.octets.specs.Bytes.{splice};
ghost use Rattle.frame.specs.Frame.{
  parts,
  with_crc,
  blocks,
  link_header,
  crc_ok,
  first_wrong,
  decode_body,
  decode,
  FrameWritten,
  FrameRead,
  frame_size,
  user_of,
  block_count,
  checked_of,
  Whole,
};

// The most user bytes of a frame, and the bytes of such a frame.
pub const USER_MAX: usize = 250;

pub const FRAME_MAX: usize = 292;

// The user bytes of a block.
pub const BLOCK: usize = 16;

// Why a frame is not written.
#[derive(Clone, Copy, Debug, PartialEq, Eq)]
pub enum WriteRefusal {
    // 16: user data over 250.
    UserTooLong,
    // 33: under 292 lent bytes.
    OutputTooSmall,
}

impl WriteRefusal {
    ghost use Rattle.frame.specs.Frame.{write_refusal_of};

    // Document 01's number.
    pub fn number(self) -> u8
        ensures { result ≡ write_refusal_of self }
    {
        match self {
            WriteRefusal::UserTooLong => 16,
            WriteRefusal::OutputTooSmall => 33,
        }
    }
}

// Why a frame is not read.
#[derive(Clone, Copy, Debug, PartialEq, Eq)]
pub enum FrameRefusal {
    // 11: under 10 bytes, or under the frame's size.
    TooShort,
    // 12: not 05 64.
    Start,
    // 13: header check wrong.
    HeaderCheck,
    // 14: length byte under 5.
    Length,
    // 15: a block check wrong, that of this block first.
    BlockCheck(u8),
    // 33: under 250 lent bytes.
    OutputTooSmall,
}

impl FrameRefusal {
    ghost use Rattle.frame.specs.FrameOutcome.{refusal_number, refusal_block};
    ghost use Rattle.frame.specs.Frame.{refusal_of};

    // Document 01's number.
    pub fn number(self) -> u8
        ensures { result ≡ refusal_number (refusal_of self) }
    {
        match self {
            FrameRefusal::TooShort => 11,
            FrameRefusal::Start => 12,
            FrameRefusal::HeaderCheck => 13,
            FrameRefusal::Length => 14,
            FrameRefusal::BlockCheck(_) => 15,
            FrameRefusal::OutputTooSmall => 33,
        }
    }

    // The block that 15 carries, 0 to 15; 0 for the others.
    pub fn block(self) -> u8
        ensures { result ≡ refusal_block (refusal_of self) }
    {
        match self {
            FrameRefusal::BlockCheck(block) => block,
            _ => 0,
        }
    }
}

// A frame that was read. Its user data is the first `len` lent bytes.
#[derive(Clone, Copy, Debug, PartialEq, Eq)]
pub struct Frame {
    pub control: u8,
    pub destination: u16,
    pub source: u16,
    pub len: usize,
}

// Puts bytes and then their check at the offset.
fn put_with_crc(out: &mut [u8], at: usize, s: &[u8])
    requires { at + length s.now + 2 ≤ length out.old }
    ensures { out.new ≡ splice out.old at (with_crc s.now) }
{
    octets::copy(out, at, s);
    octets::put2(out, at + s.len(), crc::check(s));
}

// Puts the bytes at the offset in blocks.
fn put_blocks(out: &mut [u8], at: usize, s: &[u8])
    requires { at + length s.now + 2 * block_count (length s.now) ≤ length out.old }
    ensures { out.new ≡ splice out.old at (blocks (block_count (length s.now)) s.now) }
{
    let mut to = at;
    for block in s.chunks(BLOCK) {
        put_with_crc(out, to, block);
        to += block.len() + 2;
    }
}

// The bytes of a frame with so many user bytes.
pub fn frame_size(n: usize) -> usize
    requires { n ≤ user_max }
    ensures { result ≡ frame_size n }
{
    10 + n + 2 * n.div_ceil(BLOCK)
}

#[tactic(auto, unfolding(crate::specs::Frame::link_header, octets::specs::Bytes::le))]
fn link_header(n: usize, control: u8, destination: u16, source: u16) -> [u8; 8]
    requires { n ≤ user_max }
    ensures { result ≡ link_header n control destination source }
{
    let [to_low, to_high] = destination.to_le_bytes();
    let [from_low, from_high] = source.to_le_bytes();
    [
        5,
        100,
        (n + 5) as u8,
        control,
        to_low,
        to_high,
        from_low,
        from_high,
    ]
}

// Writes a frame at the front of the lent bytes; a refusal leaves them.
pub fn write_frame(
    out: &mut [u8],
    control: u8,
    destination: u16,
    source: u16,
    user: &[u8],
) -> Result<usize, WriteRefusal>
    ensures { FrameWritten result (parts control destination source user.now) out.old out.new }
{
    if out.len() < FRAME_MAX {
        return Err(WriteRefusal::OutputTooSmall);
    }
    let n = user.len();
    if USER_MAX < n {
        return Err(WriteRefusal::UserTooLong);
    }
    let h = link_header(n, control, destination, source);
    put_with_crc(out, 0, &h);
    put_blocks(out, 10, user);
    Ok(frame_size(n))
}

// The last two bytes are the check of the others.
#[tactic(auto, unfolding(crate::specs::Frame::crc_ok, crate::specs::Frame::without_crc))]
fn crc_ok(s: &[u8]) -> bool
    requires { 2 ≤ length s.now }
    ensures { result ≡ crc_ok s.now }
{
    let n = s.len() - 2;
    crc::check(&s[..n]) == octets::take2(s, n)
}

// The first wrong one of so many blocks, counted from 0. By hand: over `chunks(BLOCK + 2).enumerate()`, as tried, no line uses `k`, of which the
// contract speaks; and its must-fail edit turns the range round.
fn first_wrong(b: &[u8], k: usize) -> Option<usize>
    requires { (length b.now ≤ 18 * k) × (18 * k < length b.now + 16) }
    ensures { MatchOption result (first_wrong k b.now ≡ k) (λ i. (i ≡ first_wrong k b.now) × (i < k)) }
{
    for i in 0..k {
        let at = 18 * i;
        let e = (at + 18).min(b.len());
        if !crc_ok(&b[at..e]) {
            return Some(i);
        }
    }
    None
}

// Checks the part of a frame after a header that says n user bytes.
#[tactic(auto, unfolding(crate::specs::Frame::decode_body))]
fn check_body(s: &[u8], n: usize) -> Result<Frame, FrameRefusal>
    requires { (10 ≤ length s.now) × (n ≤ user_max) }
    ensures { (checked_of result s.now ≡ decode_body n s.now) × Whole result s.now }
{
    let size = frame_size(n);
    if s.len() < size {
        return Err(FrameRefusal::TooShort);
    }
    if let Some(block) = first_wrong(&s[10..size], n.div_ceil(BLOCK)) {
        return Err(FrameRefusal::BlockCheck(block as u8));
    }
    Ok(Frame {
        control: s[3],
        destination: octets::take2(s, 4),
        source: octets::take2(s, 6),
        len: n,
    })
}

// Checks bytes that begin as a frame does. Apart from the tests before it, which so go into each caller: on a noisy line most bytes begin no frame.
#[inline(never)]
#[tactic(auto, unfolding(crate::specs::Frame::decode))]
fn check_begun(s: &[u8]) -> Result<Frame, FrameRefusal>
    requires { (10 ≤ length s.now) × (get_or s.now 0 0 ≡ 5) × (get_or s.now 1 0 ≡ 100) }
    ensures { (checked_of result s.now ≡ decode user_max s.now) × Whole result s.now }
{
    if !crc_ok(&s[..10]) {
        return Err(FrameRefusal::HeaderCheck);
    }
    let len = usize::from(s[2]);
    if len < 5 {
        return Err(FrameRefusal::Length);
    }
    check_body(s, len - 5)
}

// Checks the frame at the front of the bytes; its user data stays in its blocks.
#[inline(always)]
#[tactic(auto, unfolding(crate::specs::Frame::decode))]
pub fn check_frame(s: &[u8]) -> Result<Frame, FrameRefusal>
    ensures { (checked_of result s.now ≡ decode user_max s.now) × Whole result s.now }
{
    if s.len() < 10 {
        return Err(FrameRefusal::TooShort);
    }
    if s[0] != 5 || s[1] != 100 {
        return Err(FrameRefusal::Start);
    }
    check_begun(s)
}

// Copies the user data of a frame that was checked to the front of the lent bytes: for callers that decide between check and copy.
pub fn copy_user(out: &mut [u8], s: &[u8], n: usize)
    requires { (n ≤ user_max) × (frame_size n ≤ length s.now) × (n ≤ length out.old) }
    ensures { out.new ≡ splice out.old 0 (user_of n s.now) }
{
    let mut to = 0;
    for block in s[10..frame_size(n)].chunks(BLOCK + 2) {
        let user = &block[..block.len() - 2];
        octets::copy(out, to, user);
        to += user.len();
    }
}

// Reads the frame at the front of the bytes; its user data goes to the front of the lent bytes. A refusal leaves them.
pub fn read_frame(s: &[u8], out: &mut [u8]) -> Result<Frame, FrameRefusal>
    ensures { FrameRead result s.now out.old out.new }
{
    if out.len() < USER_MAX {
        return Err(FrameRefusal::OutputTooSmall);
    }
    let frame = check_frame(s)?;
    copy_user(out, s, frame.len);
    Ok(frame)
}
