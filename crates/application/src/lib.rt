// Application fragments: what a fragment is, the response header, and the WRITE that clears the restart indication.
#![tactic(auto)]

ghost use Rattle.std.specs.Prelude.{◌≡◌, ◌+◌, ◌-◌, ◌≤◌, ◌<◌, length};
ghost use Rattle.octets.specs.Bytes.{splice};
ghost use Rattle.application.specs.Fragment.{classified, fragment_of, next_of};
ghost use Rattle.application.specs.Response.{weight, fault_bits, iin1_of, iin2_of, response_control, response_of, write_fault};

// A fragment has at most so many bytes.
pub const FRAGMENT_MAX: usize = 2048;

// An application sequence number, modulo 16.
#[derive(Clone, Copy, Debug, PartialEq, Eq)]
pub struct ApplicationSequence(pub u8);

// What a fragment is that isn't malformed.
#[derive(Clone, Copy, Debug, PartialEq, Eq)]
pub enum Fragment {
    Confirm {
        sequence: ApplicationSequence,
        unsolicited: bool,
    },
    Request {
        sequence: ApplicationSequence,
        function: u8,
    },
}

// The fault that an answer indicates.
#[derive(Clone, Copy, Debug, PartialEq, Eq)]
pub enum Fault {
    FunctionUnknown,
    ObjectUnknown,
    BadParameter,
}

// What else the two indication bytes tell.
#[derive(Clone, Copy)]
pub struct Indications {
    // Events of the class are held and not in this response.
    pub class_1: bool,
    pub class_2: bool,
    pub class_3: bool,
    // Restarted, and not yet cleared.
    pub restart: bool,
    // Events were dropped.
    pub dropped: bool,
}

// The time from one fragment to another, 0 where the other is earlier.
pub fn elapsed(from: u64, to: u64) -> u64
    ensures { result ≡ to - from }
{
    to.saturating_sub(from)
}

// The next number, modulo 16.
pub fn next(s: ApplicationSequence) -> ApplicationSequence
    ensures { result.0 ≡ next_of s.0 }
{
    ApplicationSequence((s.0 % 16 + 1) % 16)
}

// What the bytes are; a malformed fragment is refused, number 31.
pub fn classify(s: &[u8]) -> Option<Fragment>
    ensures { fragment_of result ≡ classified s.now }
{
    if s.len() < 2 || FRAGMENT_MAX < s.len() {
        return None;
    }
    let control = s[0];
    let function = s[1];
    let sequence = ApplicationSequence(control % 16);
    let unsolicited = control / 16 % 2 == 1;
    if control / 32 != 6 {
        return None;
    }
    if function == 0 {
        if s.len() != 2 {
            return None;
        }
        return Some(Fragment::Confirm {
            sequence,
            unsolicited,
        });
    }
    if unsolicited {
        return None;
    }
    if 127 < function {
        return None;
    }
    Some(Fragment::Request { sequence, function })
}

// The bit of this weight, where it is on: `w * u8::from(on)` is no plainer, and has a product to bound.
fn bit(on: bool, w: u8) -> u8
    ensures { (result ≡ weight on w) × (result ≤ w) }
{
    if on { w } else { 0 }
}

fn fault_bits(f: Option<Fault>) -> u8
    ensures { (result ≡ fault_bits f) × (result ≤ 4) }
{
    match f {
        None => 0,
        Some(Fault::FunctionUnknown) => 1,
        Some(Fault::ObjectUnknown) => 2,
        Some(Fault::BadParameter) => 4,
    }
}

// The first indication byte.
pub fn iin1(i: Indications) -> u8
    ensures { result ≡ iin1_of i }
{
    bit(i.class_1, 2) + bit(i.class_2, 4) + bit(i.class_3, 8) + bit(i.restart, 128)
}

// The second indication byte.
pub fn iin2(i: Indications, f: Option<Fault>) -> u8
    ensures { result ≡ iin2_of i f }
{
    fault_bits(f) + bit(i.dropped, 8)
}

fn response_control(s: ApplicationSequence, con: bool) -> u8
    ensures { result ≡ response_control s.0 con }
{
    192 + bit(con, 32) + s.0 % 16
}

// Puts a response's control byte, function 129 and the two indication bytes at the front of the lent bytes.
pub fn put_response(
    out: &mut [u8],
    s: ApplicationSequence,
    con: bool,
    i: Indications,
    f: Option<Fault>,
)
    requires { 4 ≤ length out.old }
    ensures { out.new ≡ splice out.old 0 (response_of s.0 con i f) }
{
    out[0] = response_control(s, con);
    out[1] = 129;
    out[2] = iin1(i);
    out[3] = iin2(i, f);
}

// The fault of a WRITE with these object bytes. With none, it clears the restart indication before its answer is built.
pub fn write_fault(objects: &[u8]) -> Option<Fault>
    ensures { result ≡ write_fault objects.now }
{
    if objects.len() < 3 {
        return Some(Fault::BadParameter);
    }
    if objects[0] != 80 || objects[1] != 1 {
        return Some(Fault::ObjectUnknown);
    }
    let clear: [u8; 6] = [80, 1, 0, 7, 7, 0];
    if objects == clear.as_slice() {
        return None;
    }
    Some(Fault::BadParameter)
}
