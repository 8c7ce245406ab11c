// The words of call scripts: taken from a line one after another, and shown in an array of answers.
#![tactic(auto)]

ghost use Rattle.std.specs.Prelude.{◌≡◌, [], ◌∷◌, ◌+◌, ◌*◌, ◌/◌, ◌%◌, ◌≤◌, ◌<◌, max, length, set, drop, IfOk, IfSome, IsOk, IsNone, IsTrue, ◌↔◌, MatchOption, option_copied, ◌-◌, ◌^◌, ◌||◌, cond, leb, take};
ghost use Rattle.octets.specs.Bytes.{splice};
ghost use Rattle.text.specs.Words.{
  decimal_in,
  whole_within,
  signed_of,
  fitted,
  hex_read,
  hex_got,
  decimal_of,
  nibble_of,
  digit_of,
  hex_of,
  cursor_after,
  word_in,
  TakesWord,
  TakesValue,
  nothing_in,
  control_in,
  real_in,
  reading_in,
  run_of,
};

// ---- numbers and bytes of a word

// The number of digits, within the limit.
fn digits_of(w: &[u8], limit: u64) -> Option<u64>
    ensures said { result ≡ whole_within limit 0 w.now }
    ensures within { IfSome result (λ n. n ≤ limit) }
{
    let mut a: u64 = 0;
    for &b in w {
        if b < b'0' || b'9' < b {
            return None;
        }
        let d = u64::from(b - b'0');
        if limit < d {
            return None;
        }
        if (limit - d) / 10 < a {
            return None;
        }
        a = 10 * a + d;
    }
    Some(a)
}

// The number of a word, from 0 to the limit, with no zeros in front.
#[tactic(auto, unfolding(crate::specs::Words::decimal_in, crate::specs::Words::padded))]
pub fn decimal_of(w: &[u8], limit: u64) -> Option<u64>
    ensures said { result ≡ decimal_in limit w.now }
    ensures within { IfSome result (λ n. n ≤ limit) }
{
    if w.is_empty() {
        return None;
    }
    if 1 < w.len() && w[0] == b'0' {
        return None;
    }
    digits_of(w, limit)
}

// A signed number: its sign and its size, since `signed_of` takes any limits of 64 bits on either side.
#[derive(Clone, Copy)]
pub struct Signed {
    pub negative: bool,
    pub size: u64,
}

// The number of a word, from minus low to high.
#[tactic(auto, unfolding(crate::specs::Words::signed_of))]
pub fn signed_of(w: &[u8], low: u64, high: u64) -> Option<Signed>
    ensures said { result ≡ signed_of low high w.now }
    ensures within { IfSome result (λ n. n.size ≤ max low high) }
{
    if w.is_empty() {
        return None;
    }
    if w[0] == b'-' {
        let size = decimal_of(&w[1..], low)?;
        if size == 0 {
            return None;
        }
        return Some(Signed {
            negative: true,
            size,
        });
    }
    let size = decimal_of(w, high)?;
    Some(Signed {
        negative: false,
        size,
    })
}

impl Signed {
    // The number, where 32 bits hold it.
    pub fn to_i32(self) -> Option<i32>
        ensures { result ≡ fitted 2147483648 self.negative self.size }
    {
        if self.negative {
            if self.size <= 2147483648 {
                return Some((-(self.size as i64)) as i32);
            }
            return None;
        }
        if self.size <= 2147483647 {
            return Some(self.size as i32);
        }
        None
    }

    // The number, where it is not negative and 32 bits hold it.
    pub fn to_u32(self) -> Option<u32>
        ensures { result ≡ cond (self.negative || leb (2 ^ 32) self.size) None (Some self.size) }
    {
        if self.negative {
            None
        } else {
            u32::try_from(self.size).ok()
        }
    }
}

// The number of a hex digit, if it is one.
#[tactic(auto, unfolding(crate::specs::Words::nibble_of))]
fn nibble(b: u8) -> Option<u8>
    ensures { MatchOption result (nibble_of b ≡ 16) (λ n. (n ≡ nibble_of b) × (n < 16)) }
{
    match b {
        b'0'..=b'9' => Some(b - 48),
        b'A'..=b'F' => Some(b - 55),
        _ => None,
    }
}

// Puts the bytes of a word at the front of the lent bytes, and says how many.
pub fn unhex_into(out: &mut [u8], w: &[u8]) -> Option<usize>
    ensures said { hex_got result out.new ≡ hex_read (length out.old) w.now }
    ensures within { IfSome result (λ n. n ≤ length out.new) }
{
    let n = w.len() / 2;
    if out.len() < n {
        return None;
    }
    if w.len() % 2 != 0 {
        return None;
    }
    // Two digits a byte: an index serves both.
    for k in 0..n {
        let high = nibble(w[2 * k])?;
        let low = nibble(w[2 * k + 1])?;
        out[k] = 16 * high + low;
    }
    Some(n)
}

// ---- the words of a line

// A word is missing, or is not what a call takes there.
#[derive(Clone, Copy)]
pub struct WrongWord;

// The words of a line that are still to be taken: none is left behind the last.
#[derive(Clone, Copy)]
pub struct Words<'a> {
    pub rest: Option<&'a [u8]>,
}

impl<'a> Words<'a> {
    // All words of the line.
    pub fn new(line: &'a [u8]) -> Self
        ensures { option_copied result.rest ≡ Some line.now }
    {
        Words { rest: Some(line) }
    }

    pub fn is_finished(&self) -> bool
        ensures { IsTrue result ↔ IsNone self.now.rest }
    {
        self.rest.is_none()
    }

    // All words were taken.
    pub fn finish(&self) -> Result<(), WrongWord>
        ensures { IsOk result ↔ IsNone self.now.rest }
    {
        if self.is_finished() {
            Ok(())
        } else {
            Err(WrongWord)
        }
    }

    // The next word, up to a mark.
    pub fn word(&mut self, mark: u8) -> Result<&'a [u8], WrongWord>
        ensures { TakesWord mark (option_copied self.old.rest) (option_copied (word_in result)) (option_copied self.new.rest) }
    {
        let Some(rest) = self.rest else {
            return Err(WrongWord);
        };
        match rest.iter().position(|&b| b == mark) {
            Some(n) => {
                self.rest = Some(&rest[n + 1..]);
                Ok(&rest[..n])
            }
            None => {
                self.rest = None;
                Ok(rest)
            }
        }
    }

    // A number from 0 to the limit, which need not be a type's last: callers narrow it.
    pub fn number(&mut self, mark: u8, limit: u64) -> Result<u64, WrongWord>
        ensures within { IfOk result (λ n. n ≤ limit) }
        ensures said { TakesValue mark (decimal_in limit) (option_copied self.old.rest) (word_in result) (option_copied self.new.rest) }
    {
        decimal_of(self.word(mark)?, limit).ok_or(WrongWord)
    }

    // A signed number that 64 bits hold.
    pub fn signed(&mut self, mark: u8) -> Result<Signed, WrongWord>
        ensures { TakesValue mark (signed_of 9223372036854775808 9223372036854775807) (option_copied self.old.rest) (word_in result) (option_copied self.new.rest) }
    {
        signed_of(self.word(mark)?, 9223372036854775808, 9223372036854775807).ok_or(WrongWord)
    }

    // A whole reading.
    pub fn reading(&mut self, mark: u8) -> Result<i32, WrongWord>
        ensures { TakesValue mark reading_in (option_copied self.old.rest) (word_in result) (option_copied self.new.rest) }
    {
        self.signed(mark)?.to_i32().ok_or(WrongWord)
    }

    // Bytes, `-` for none, put at the front of the lent bytes; says how many.
    pub fn run(&mut self, out: &mut [u8]) -> Result<usize, WrongWord>
        ensures { IfOk result (λ n. n ≤ length out.new) }
    {
        let w = self.word(b' ')?;
        if matches!(w, [b'-']) {
            return Ok(0);
        }
        match unhex_into(out, w) {
            Some(n) if 0 < n => Ok(n),
            _ => Err(WrongWord),
        }
    }

    // One byte, two digits.
    pub fn control(&mut self) -> Result<u8, WrongWord>
        ensures { TakesValue 32 control_in (option_copied self.old.rest) (word_in result) (option_copied self.new.rest) }
    {
        let mut b = [0u8; 1];
        match unhex_into(&mut b, self.word(b' ')?) {
            Some(1) => Ok(b[0]),
            _ => Err(WrongWord),
        }
    }

    // A float's bit pattern, eight digits, highest first.
    pub fn real(&mut self, mark: u8) -> Result<f32, WrongWord>
        ensures { TakesValue mark real_in (option_copied self.old.rest) (word_in result) (option_copied self.new.rest) }
    {
        let mut b = [0u8; 4];
        let n = unhex_into(&mut b, self.word(mark)?).ok_or(WrongWord)?;
        if n != 4 {
            return Err(WrongWord);
        }
        Ok(words::float(u32::from_be_bytes(b)))
    }

    // The word `-`, where a field has nothing.
    pub fn nothing(&mut self, mark: u8) -> Result<(), WrongWord>
        ensures { TakesValue mark nothing_in (option_copied self.old.rest) (word_in result) (option_copied self.new.rest) }
    {
        if octets::equal(self.word(mark)?, b"-") {
            Ok(())
        } else {
            Err(WrongWord)
        }
    }
}

// ---- answers

// Answers that are not yet written out: the first `len` bytes, in fixed memory. What there is no room for is lost.
#[derive(Drop)]
pub struct Answers<const N: usize> {
    pub bytes: [u8; N],
    pub len: usize,
}

impl<const N: usize> Answers<N> {
    pub fn new() -> Self
        ensures { result.len ≡ 0 }
    {
        Answers {
            bytes: [0; N],
            len: 0,
        }
    }

    // Puts a byte, if there is room.
    pub fn put(&mut self, b: u8)
        ensures bytes { self.new.bytes ≡ set self.old.bytes self.old.len b }
        ensures len { self.new.len ≡ cursor_after (length self.old.bytes) self.old.len 1 }
    {
        if self.len < self.bytes.len() {
            self.bytes[self.len] = b;
            self.len += 1;
        }
    }

    // Puts the bytes, as far as there is room.
    pub fn put_bytes(&mut self, s: &[u8])
        ensures bytes { self.new.bytes ≡ splice self.old.bytes self.old.len s.now }
        ensures len { self.new.len ≡ cursor_after (length self.old.bytes) self.old.len (length s.now) }
    {
        for &b in s {
            self.put(b);
        }
    }

    // Puts the decimal digits of v.
    pub fn put_decimal(&mut self, v: u64)
        ensures bytes { self.new.bytes ≡ splice self.old.bytes self.old.len (decimal_of v) }
        ensures len { self.new.len ≡ cursor_after (length self.old.bytes) self.old.len (length (decimal_of v)) }
    {
        let mut t = [0u8; 20];
        let from = spell(&mut t, v);
        self.put_bytes(&t[from..])
    }

    // Puts the two digits of a byte.
    pub fn put_byte(&mut self, b: u8)
        ensures bytes { self.new.bytes ≡ splice self.old.bytes self.old.len (digit_of (b / 16) ∷ digit_of (b % 16) ∷ []) }
        ensures len { self.new.len ≡ cursor_after (length self.old.bytes) self.old.len 2 }
    {
        self.put(digit(b / 16));
        self.put(digit(b % 16));
    }

    // Puts the bytes, two digits each.
    pub fn put_hex(&mut self, s: &[u8])
        ensures bytes { self.new.bytes ≡ splice self.old.bytes self.old.len (hex_of s.now) }
        ensures len { self.new.len ≡ cursor_after (length self.old.bytes) self.old.len (2 * length s.now) }
    {
        for &b in s {
            self.put_byte(b);
        }
    }

    // Puts the bytes, two digits each, `-` for none.
    pub fn put_run(&mut self, s: &[u8])
        ensures bytes { self.new.bytes ≡ splice self.old.bytes self.old.len (run_of s.now) }
        ensures len { self.new.len ≡ cursor_after (length self.old.bytes) self.old.len (length (run_of s.now)) }
    {
        if s.len() == 0 {
            self.put(b'-');
        } else {
            self.put_hex(s);
        }
    }

    // What there is to write out.
    pub fn written(&self) -> &[u8]
        ensures { result.now ≡ take self.now.len self.now.bytes }
    {
        &self.bytes[..self.len.min(self.bytes.len())]
    }

    // How many bytes there is room for.
    pub fn room(&self) -> usize
        ensures { result ≡ length self.now.bytes - self.now.len }
    {
        self.bytes.len().saturating_sub(self.len)
    }
}

// Puts the digits of v at the end of t and answers where they begin. It goes on until one digit is left, which no range says beforehand.
fn spell(t: &mut [u8; 20], v: u64) -> usize
    requires { length t.old ≡ 20 }
    ensures { (drop result t.new ≡ decimal_of v) × (result < 20) × (length t.new ≡ 20) }
{
    let mut i: usize = 20;
    let mut rest = v;
    while 9 < rest {
        i -= 1;
        t[i] = 48 + (rest % 10) as u8;
        rest = rest / 10;
    }
    i -= 1;
    t[i] = 48 + (rest % 10) as u8;
    i
}

// The hex digit of a number below 16.
#[tactic(auto, unfolding(crate::specs::Words::digit_of))]
fn digit(d: u8) -> u8
    requires { d < 16 }
    ensures { result ≡ digit_of d }
{
    if d < 10 { 48 + d } else { 55 + d }
}
