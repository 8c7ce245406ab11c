// Numbers of several bytes, lowest byte first, put into and taken from bytes at an offset; byte strings copied and compared.
#![tactic(auto)]

ghost use Rattle.std.specs.Prelude.{◌≡◌, ◌+◌, ◌^◌, ◌≤◌, ◌<◌, length};
ghost use Rattle.laws.specs.Lists.{same};
ghost use Rattle.octets.specs.Bytes.{splice, le, value_at};

// Puts the n low bytes of v at the offset.
pub fn put(b: &mut [u8], at: usize, n: usize, v: u64)
    requires { at + n ≤ length b.old }
    ensures { b.new ≡ splice b.old at (le n v) }
{
    let mut rest = v;
    for i in at..at + n {
        b[i] = (rest % 256) as u8;
        rest /= 256;
    }
}

// `put` and `take` are of any width. These four say it by a number's type, so that no caller converts: one function over the types would need a trait
// of its own with an impl for each, longer than they are.
pub fn put2(b: &mut [u8], at: usize, v: u16)
    requires { at + 2 ≤ length b.old }
    ensures { b.new ≡ splice b.old at (le 2 v) }
{
    put(b, at, 2, u64::from(v))
}

pub fn put4(b: &mut [u8], at: usize, v: u32)
    requires { at + 4 ≤ length b.old }
    ensures { b.new ≡ splice b.old at (le 4 v) }
{
    put(b, at, 4, u64::from(v))
}

// The number of n bytes at the offset, n at most 8.
pub fn take(s: &[u8], at: usize, n: usize) -> u64
    requires { (at + n ≤ length s.now) × (n ≤ 8) }
    ensures { (result ≡ value_at n at s.now) × (result < 256 ^ n) }
{
    let mut r = 0;
    for i in (at..at + n).rev() {
        r = u64::from(s[i]) + 256 * r;
    }
    r
}

pub fn take2(s: &[u8], at: usize) -> u16
    requires { at + 2 ≤ length s.now }
    ensures { result ≡ value_at 2 at s.now }
{
    take(s, at, 2) as u16
}

pub fn take4(s: &[u8], at: usize) -> u32
    requires { at + 4 ≤ length s.now }
    ensures { result ≡ value_at 4 at s.now }
{
    take(s, at, 4) as u32
}

// The two byte strings are equal. A function and not `==` at each place: its contract says `same`, in which the definitions above are stated.
#[tactic(auto, using(laws::proofs::SameLaws::same_as_eq, laws::proofs::SameLaws::same_lengths, laws::proofs::SameLaws::same_by_places, laws::proofs::SameLaws::same_by_front))]
pub fn equal(a: &[u8], b: &[u8]) -> bool
    ensures { result ≡ same a.now b.now }
{
    a == b
}

// Copies s to the offset. A loop, since `copy_from_slice` becomes a call of `memmove`, which the archive for C asks of no host.
pub fn copy(d: &mut [u8], at: usize, s: &[u8])
    requires { at + length s.now ≤ length d.old }
    ensures { d.new ≡ splice d.old at s.now }
{
    for (i, b) in s.iter().enumerate() {
        d[at + i] = *b;
    }
}
