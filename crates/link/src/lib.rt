// The station on its link: which frames it takes, what it replies, and the line record.
#![tactic(auto)]

ghost use Rattle.std.specs.Prelude.{◌≡◌, []};
ghost use Rattle.frame.specs.Frame.{FrameWritten};
ghost use Rattle.link.specs.Station.{
  count_if,
  block_counted,
  blocks_counted,
  counted_of,
  with_data,
  without_data,
  by_function,
  addressed,
  taken_by,
  taken_of,
  FrameTaken,
  FrameCounted,
  reply_control,
  to_master,
};

use frame::{Frame, FrameRefusal, WriteRefusal};

// The addresses of the station and of its master.
#[repr(C)]
#[derive(Clone, Copy)]
pub struct Station {
    pub own: u16,
    pub master: u16,
}

// Where a count of the line record stops.
pub const COUNT_MAX: u16 = 65535;

// The counts of the line record that are kept by block: a frame has at most so many.
pub const BLOCK_COUNTS: usize = 16;

// Control bytes: replies, and outgoing data.
pub const ACK: u8 = 0x00;

pub const LINK_STATUS: u8 = 0x0B;

pub const NOT_SUPPORTED: u8 = 0x0F;

pub const USER_DATA: u8 = 0x44;

// The line record, kept by the host: counts of accepted frames and of refusals 11 to 15 and 17, and of refusals 15 by their block.
#[repr(C)]
#[derive(Clone, Copy)]
pub struct LineRecord {
    pub accepted: u16,
    pub short: u16,
    pub start: u16,
    pub header_check: u16,
    pub length: u16,
    pub block_check: u16,
    pub not_taken: u16,
    pub blocks: [u16; BLOCK_COUNTS],
}

// What a frame that is taken comes to.
#[derive(Clone, Copy, Debug, PartialEq, Eq)]
pub enum Taken {
    // So many bytes of user data, in the lent bytes.
    UserData(usize),
    // A reply with this control byte is to be sent; nothing is in the lent bytes.
    Reply(u8),
}

// Why a frame is not taken.
#[derive(Clone, Copy, Debug, PartialEq, Eq)]
pub enum TakeRefusal {
    // 11 to 15 and 33, as in reading a frame.
    Frame(FrameRefusal),
    // 17: frame not one the station takes.
    NotTaken,
}

impl From<FrameRefusal> for TakeRefusal {
    ghost use Rattle.link.specs.declared.TakeRefusal.TheVariants as R;

    ghost from_gives = { λ why refused. refused ≡ R.Frame why };

    fn from(refusal: FrameRefusal) -> TakeRefusal {
        TakeRefusal::Frame(refusal)
    }
}

impl TakeRefusal {
    ghost use Rattle.frame.specs.FrameOutcome.{refusal_number, refusal_block};
    ghost use Rattle.link.specs.Station.{take_refusal_of};

    // Document 01's number.
    pub fn number(self) -> u8
        ensures { result ≡ refusal_number (take_refusal_of self) }
    {
        match self {
            TakeRefusal::Frame(why) => why.number(),
            TakeRefusal::NotTaken => 17,
        }
    }

    // The block that 15 carries, 0 to 15; 0 for the others.
    pub fn block(self) -> u8
        ensures { result ≡ refusal_block (take_refusal_of self) }
    {
        match self {
            TakeRefusal::Frame(why) => why.block(),
            TakeRefusal::NotTaken => 0,
        }
    }
}

// One more where the test is true; 65,535 stays.
fn count_if(test: bool, n: u16) -> u16
    ensures { result ≡ count_if test n }
{
    if test { n.saturating_add(1) } else { n }
}

// The counts by block with one more for this block; one that no frame has is not counted.
fn block_counted(counts: [u16; BLOCK_COUNTS], block: u8) -> [u16; BLOCK_COUNTS]
    ensures { result ≡ block_counted counts block }
{
    let i = block as usize;
    let mut next = counts;
    if i < BLOCK_COUNTS {
        next[i] = count_if(true, next[i]);
    }
    next
}

// The counts by block with this frame counted.
fn blocks_counted(
    counts: [u16; BLOCK_COUNTS],
    taken: Result<Taken, TakeRefusal>,
) -> [u16; BLOCK_COUNTS]
    ensures { result ≡ blocks_counted counts (taken_of taken) }
{
    match taken {
        Err(TakeRefusal::Frame(FrameRefusal::BlockCheck(block))) => block_counted(counts, block),
        _ => counts,
    }
}

// The record with this frame counted: seven counts by one table of document 01's numbers. A match would write the record out once an arm.
pub fn counted(l: LineRecord, taken: Result<Taken, TakeRefusal>) -> LineRecord
    ensures { result ≡ counted_of l (taken_of taken) }
{
    let k = match taken {
        Ok(_) => 0,
        Err(why) => why.number(),
    };
    LineRecord {
        accepted: count_if(k == 0, l.accepted),
        short: count_if(k == 11, l.short),
        start: count_if(k == 12, l.start),
        header_check: count_if(k == 13, l.header_check),
        length: count_if(k == 14, l.length),
        block_check: count_if(k == 15, l.block_check),
        not_taken: count_if(k == 17, l.not_taken),
        blocks: blocks_counted(l.blocks, taken),
    }
}

// A function with user data: n at least 1. `fcv` is the bit as it came.
fn with_data(fcv: u8, n: usize) -> Result<Taken, TakeRefusal>
    ensures { result ≡ taken_by (with_data fcv n) n }
{
    if fcv != 0 || n == 0 {
        return Err(TakeRefusal::NotTaken);
    }
    Ok(Taken::UserData(n))
}

// A function without user data, answered with this control byte.
fn without_data(fcv: u8, n: usize, control: u8) -> Result<Taken, TakeRefusal>
    ensures { result ≡ taken_by (without_data fcv n control) n }
{
    if fcv != 0 || n != 0 {
        return Err(TakeRefusal::NotTaken);
    }
    Ok(Taken::Reply(control))
}

// What a frame from the master to the station asks by its function.
#[tactic(auto, unfolding(crate::specs::Station::by_function))]
fn by_function(control: u8, n: usize) -> Result<Taken, TakeRefusal>
    ensures { result ≡ taken_by (by_function control n) n }
{
    let fcv = control / 16 % 2;
    match control % 16 {
        4 => with_data(fcv, n),
        0 => without_data(fcv, n, ACK),
        9 => without_data(fcv, n, LINK_STATUS),
        _ => Ok(Taken::Reply(NOT_SUPPORTED)),
    }
}

// What a whole frame comes to, by its addresses and its direction first.
#[tactic(auto, unfolding(crate::specs::Station::addressed))]
fn addressed(st: Station, f: Frame) -> Result<Taken, TakeRefusal>
    ensures { result ≡ taken_by (addressed st f.control f.destination f.source f.len) f.len }
{
    if f.source != st.master || f.destination != st.own {
        return Err(TakeRefusal::NotTaken);
    }
    if f.control / 64 != 3 {
        return Err(TakeRefusal::NotTaken);
    }
    by_function(f.control, f.len)
}

// Takes the frame at the front of the bytes. Only user data that is handed on goes to the lent bytes.
pub fn take_frame(st: Station, s: &[u8], out: &mut [u8]) -> Result<Taken, TakeRefusal>
    ensures { FrameTaken result st s.now out.old out.new }
{
    if out.len() < frame::USER_MAX {
        return Err(TakeRefusal::Frame(FrameRefusal::OutputTooSmall));
    }
    let f = frame::check_frame(s)?;
    let taken = addressed(st, f)?;
    if let Taken::UserData(n) = taken {
        frame::copy_user(out, s, n);
    }
    Ok(taken)
}

// Takes a frame, and counts it in the line record, in place.
pub fn receive(
    line: &mut LineRecord,
    st: Station,
    s: &[u8],
    out: &mut [u8],
) -> Result<Taken, TakeRefusal>
    ensures { FrameCounted result line.old line.new st s.now out.old out.new }
{
    let taken = take_frame(st, s, out);
    *line = counted(*line, taken);
    taken
}

// The control byte of a reply: 00 and 0B are themselves, and any other is NOT_SUPPORTED.
#[tactic(auto, unfolding(crate::specs::Station::reply_control))]
fn reply_control(control: u8) -> u8
    ensures { result ≡ reply_control control }
{
    match control {
        ACK | LINK_STATUS => control,
        _ => NOT_SUPPORTED,
    }
}

// Writes a reply to the master: a frame with one of the three reply control bytes and no user data.
pub fn write_reply(out: &mut [u8], st: Station, control: u8) -> Result<usize, WriteRefusal>
    ensures { FrameWritten result (to_master st (reply_control control) []) out.old out.new }
{
    let c = reply_control(control);
    frame::write_frame(out, c, st.master, st.own, &[])
}

// Writes user data to the master, under control byte 44.
pub fn write_data(out: &mut [u8], st: Station, user: &[u8]) -> Result<usize, WriteRefusal>
    ensures { FrameWritten result (to_master st 0x44 user.now) out.old out.new }
{
    frame::write_frame(out, USER_DATA, st.master, st.own, user)
}
