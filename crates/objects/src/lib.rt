// Values and flags as bytes of an object.
#![tactic(auto)]

ghost use Rattle.std.specs.Prelude.{◌≡◌, ◌+◌, ◌≤◌, length};
ghost use Rattle.octets.specs.Bytes.{splice};
ghost use Rattle.objects.specs.Values.{value_bytes, value_size, state_byte};

use points::Value;

// Puts a value at the offset, and answers the offset after it.
pub fn put_value(out: &mut [u8], at: usize, v: Value) -> usize
    requires { at + value_size v ≤ length out.old }
    ensures { (result ≡ at + value_size v) × (out.new ≡ splice out.old at (value_bytes v)) }
{
    match v {
        Value::Int32(z) => {
            octets::put4(out, at, z.cast_unsigned());
            at + 4
        }
        Value::Int16(z) => {
            octets::put2(out, at, z.cast_unsigned());
            at + 2
        }
        Value::Float32(x) => {
            octets::put4(out, at, words::float_bits(x));
            at + 4
        }
    }
}

// A binary's flags with its state.
pub fn state_byte(state: bool, flags: u8) -> u8
    ensures { result ≡ state_byte state flags }
{
    if state {
        flags % 128 + 128
    } else {
        flags % 128
    }
}
