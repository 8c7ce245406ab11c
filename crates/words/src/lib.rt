// The fields of a record in words that the host lends: signed numbers, floats and truths in 32 bits each. Any word stands for one of each,
// so that any lent memory stands for some state.
#![tactic(auto)]

ghost use Rattle.std.specs.Prelude.{◌≡◌, ℕ};
ghost use Rattle.std.specs.Float.{binary32};
ghost use Rattle.std.specs.Float.Ieee.{of_bits, to_bits};
ghost use Rattle.std.specs.Int.{w32};
ghost use Rattle.std.proofs.Common.{to_z};

// A number that a word holds: each word stands for one.
pub trait Word: Copy {
    ghost of_word: { ℕ → Self };

    fn from_word(w: u32) -> Self
        ensures { result ≡ of_word w };

    fn into_word(self) -> u32
        ensures { of_word result ≡ self };
}

impl Word for u32 {
    ghost of_word = { λ w. w };

    fn from_word(w: u32) -> u32 {
        w
    }

    fn into_word(self) -> u32 {
        self
    }
}

impl Word for i32 {
    ghost of_word = { to_z w32 };

    fn from_word(w: u32) -> i32 {
        signed(w)
    }

    fn into_word(self) -> u32 {
        signed_bits(self)
    }
}

impl Word for f32 {
    ghost of_word = { of_bits binary32 };

    fn from_word(w: u32) -> f32 {
        float(w)
    }

    fn into_word(self) -> u32 {
        float_bits(self)
    }
}

// The signed number of these bits, two's complement.
pub fn signed(bits: u32) -> i32
    ensures { result ≡ to_z w32 bits }
{
    bits.cast_signed()
}

// The bits of a signed number.
pub fn signed_bits(x: i32) -> u32
    ensures { to_z w32 result ≡ x }
{
    x.cast_unsigned()
}

// The float of these bits. Every NaN's bits give the one NaN.
pub fn float(bits: u32) -> f32
    ensures { result ≡ of_bits binary32 bits }
{
    if bits % 0x8000_0000 <= 0x7f80_0000 {
        f32::from_bits(bits)
    } else {
        f32::NAN
    }
}

// The bits of a float. The NaN has those of the quiet NaN.
pub fn float_bits(x: f32) -> u32
    ensures { (of_bits binary32 result ≡ x) × (result ≡ to_bits binary32 x) }
{
    if x.is_nan() { 0x7fc0_0000 } else { x.to_bits() }
}
