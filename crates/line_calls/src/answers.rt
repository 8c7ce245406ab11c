// The common parts of answers, and the bytes that calls are lent.
ghost use Rattle.std.specs.Prelude.{◌≤◌, length, IfOk};

use frame::{FrameRefusal, WriteRefusal};
use link::TakeRefusal;
use text::{Words, WrongWord};
use transport::{SegmentRefusal, SendRefusal};

// The most bytes that a call is lent.
pub const LENT_MAX: u64 = 65536;

// The arrays of a call's bytes, and of the bytes that it is lent.
pub const BYTES_MAX: usize = 32768;

pub const ROOM_MAX: usize = 65536;

// The most bytes of answers that are not yet written out, and those answers.
pub const OUT_MAX: usize = 65536;

pub type Answers = text::Answers<OUT_MAX>;

// What lent bytes are filled with.
pub const FILL: u8 = 0xA5;

// Why a call is not made.
#[derive(Clone, Copy)]
pub enum NotMade {
    WrongWord,
    NoOutstation,
}

impl NotMade {
    pub fn text(self) -> &'static [u8] {
        match self {
            NotMade::WrongWord => b"fault",
            NotMade::NoOutstation => b"none",
        }
    }
}

impl From<WrongWord> for NotMade {
    fn from(_: WrongWord) -> NotMade {
        NotMade::WrongWord
    }
}

// A refusal as an answer tells it: its number, and the block that refusal 15 carries.
#[derive(Clone, Copy)]
pub struct Refusal {
    pub number: u8,
    pub block: Option<u8>,
}

impl Refusal {
    pub fn new(number: u8) -> Self {
        Refusal {
            number,
            block: None,
        }
    }
}

impl From<WriteRefusal> for Refusal {
    fn from(why: WriteRefusal) -> Refusal {
        Refusal::new(why.number())
    }
}

impl From<FrameRefusal> for Refusal {
    fn from(why: FrameRefusal) -> Refusal {
        Refusal {
            number: why.number(),
            block: match why {
                FrameRefusal::BlockCheck(block) => Some(block),
                _ => None,
            },
        }
    }
}

impl From<TakeRefusal> for Refusal {
    fn from(why: TakeRefusal) -> Refusal {
        match why {
            TakeRefusal::Frame(why) => Refusal::from(why),
            TakeRefusal::NotTaken => Refusal::new(why.number()),
        }
    }
}

impl From<SegmentRefusal> for Refusal {
    fn from(why: SegmentRefusal) -> Refusal {
        Refusal::new(why.number())
    }
}

impl From<SendRefusal> for Refusal {
    fn from(why: SendRefusal) -> Refusal {
        Refusal::new(why.number())
    }
}

// LEN HEX: how many bytes are lent, and how many are given.
pub fn lending(words: &mut Words, bytes: &mut [u8]) -> Result<(usize, usize), WrongWord>
    ensures { IfOk result (λ r. r.1 ≤ length bytes.new) }
{
    let size = words.number(b' ', LENT_MAX)? as usize;
    let len = words.run(bytes)?;
    Ok((size, len))
}

// The end of an answer's line.
pub fn end(out: &mut Answers) {
    out.put(b'\n');
}

// A whole answer.
pub fn answer(out: &mut Answers, s: &[u8]) {
    out.put_bytes(s);
    end(out);
}

// A mark and a number.
pub fn number(out: &mut Answers, mark: u8, n: u16) {
    out.put(mark);
    out.put_decimal(u64::from(n));
}

// `no N`, and `no 15 B`
fn put_refusal(out: &mut Answers, why: Refusal) {
    out.put_bytes(b"no");
    number(out, b' ', u16::from(why.number));
    if let Some(block) = why.block {
        number(out, b' ', u16::from(block));
    }
}

// The words and the bytes used, or why it was refused. Says how many of the lent bytes are the answer.
pub fn put_outcome(
    out: &mut Answers,
    outcome: Result<usize, Refusal>,
    words: &[u8],
    lent: &[u8],
) -> usize
    ensures { result ≤ length lent.now }
{
    match outcome {
        Ok(n) => {
            let used = n.min(lent.len());
            out.put_bytes(words);
            out.put_run(&lent[..used]);
            used
        }
        Err(why) => {
            put_refusal(out, why);
            0
        }
    }
}

// The end of an answer: ` spoilt` where lent bytes were changed that should not be.
pub fn end_with(out: &mut Answers, spoilt: bool) {
    if spoilt {
        out.put_bytes(b" spoilt");
    }
    end(out);
}

// The same, where the lent bytes past those used are as they were filled.
pub fn end_past(out: &mut Answers, used: usize, lent: &[u8]) {
    let from = used.min(lent.len());
    end_with(out, is_changed(&lent[from..]));
}

// The whole answer.
pub fn tell(out: &mut Answers, outcome: Result<usize, Refusal>, words: &[u8], lent: &[u8]) {
    let used = put_outcome(out, outcome, words, lent);
    end_past(out, used, lent);
}

// What a reading or a table came to: `ok` or `no N`.
pub fn put_taken(out: &mut Answers, refusal: u8) {
    if refusal == 0 {
        out.put_bytes(b"ok");
    } else {
        put_refusal(out, Refusal::new(refusal));
    }
    end(out);
}

// Some byte is no longer as it was filled. Folded to the end and not `any`, which stops at the first: in a right answer none is changed, and a loop
// without a way out takes many bytes at once.
pub fn is_changed(s: &[u8]) -> bool {
    s.iter().fold(0, |d, &b| d | (b ^ FILL)) != 0
}
