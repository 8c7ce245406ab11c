// One object header of a READ: what it asks for, or its fault.
#![tactic(auto)]

ghost use Rattle.std.specs.Prelude.{◌≡◌, ◌≤◌, length, IfOk};
ghost use Rattle.read_headers.specs.Headers.{object_of, points_from, range_header, point_header, class_header, front_header};

use application::Fault;

// A READ has at most so many object headers.
pub const HEADERS_MAX: usize = 16;

// What a header asks for: events of a class 1 to 3, and so many binaries and analogs from a first one on.
#[derive(Clone, Copy, Debug, PartialEq, Eq)]
pub struct Header {
    pub class: Option<u8>,
    pub binary: u16,
    pub binaries: u16,
    pub analog: u16,
    pub analogs: u16,
}

// A kind of input.
#[derive(Clone, Copy, Debug, PartialEq, Eq)]
pub enum PointKind {
    Binary,
    Analog,
}

// What a READ may ask for: 60 var 1 to 4 are the classes 0 to 3; 1 var 0 or 2; 30 var 0.
#[derive(Clone, Copy, Debug, PartialEq, Eq)]
pub enum Object {
    Class(u8),
    Points(PointKind),
}

// The header at the front of the bytes, and how many of them it has.
#[derive(Clone, Copy, Debug, PartialEq, Eq)]
pub struct Front {
    pub header: Header,
    pub size: usize,
}

// What a group and a variation name, where a READ may ask for it.
fn object_of(group: u8, variation: u8) -> Option<Object>
    ensures { result ≡ object_of group variation }
{
    match (group, variation) {
        (60, 1..=4) => Some(Object::Class(variation - 1)),
        (1, 0 | 2) => Some(Object::Points(PointKind::Binary)),
        (30, 0) => Some(Object::Points(PointKind::Analog)),
        _ => None,
    }
}

// Points of one kind, by a first one and how many.
fn points_from(kind: PointKind, start: u16, n: u16) -> Header
    ensures { result ≡ points_from kind start n }
{
    match kind {
        PointKind::Binary => Header {
            class: None,
            binary: start,
            binaries: n,
            analog: 0,
            analogs: 0,
        },
        PointKind::Analog => Header {
            class: None,
            binary: 0,
            binaries: 0,
            analog: start,
            analogs: n,
        },
    }
}

fn class_header(s: &[u8], binaries: u16, analogs: u16, class: u8) -> Result<Front, Fault>
    requires { 3 ≤ length s.now }
    ensures { result ≡ class_header binaries analogs class s.now }
{
    if s[2] != 6 {
        return Err(Fault::BadParameter);
    }
    let header = if class == 0 {
        Header {
            class: None,
            binary: 0,
            binaries,
            analog: 0,
            analogs,
        }
    } else {
        Header {
            class: Some(class),
            binary: 0,
            binaries: 0,
            analog: 0,
            analogs: 0,
        }
    };
    Ok(Front { header, size: 3 })
}

// A range that is not cut short.
fn range_header(kind: PointKind, n: u16, size: usize, start: u16, stop: u16) -> Result<Front, Fault>
    ensures { result ≡ range_header kind n size size start stop }
{
    if stop < start {
        return Err(Fault::BadParameter);
    }
    if n <= stop {
        return Err(Fault::BadParameter);
    }
    let header = points_from(kind, start, stop - start + 1);
    Ok(Front { header, size })
}

fn point_header(s: &[u8], kind: PointKind, n: u16) -> Result<Front, Fault>
    requires { 3 ≤ length s.now }
    ensures { result ≡ point_header kind n s.now }
{
    match s[2] {
        6 => Ok(Front {
            header: points_from(kind, 0, n),
            size: 3,
        }),
        0 if 5 <= s.len() => range_header(kind, n, 5, u16::from(s[3]), u16::from(s[4])),
        1 if 7 <= s.len() => { range_header(kind, n, 7, octets::take2(s, 3), octets::take2(s, 5)) }
        _ => Err(Fault::BadParameter),
    }
}

// The header at the front of the bytes, where there are so many binaries and analogs.
pub fn front_header(s: &[u8], binaries: u16, analogs: u16) -> Result<Front, Fault>
    ensures header { result ≡ front_header binaries analogs s.now }
    ensures within { IfOk result (λ x. (3 ≤ x.size) × (x.size ≤ length s.now)) }
{
    if s.len() < 3 {
        return Err(Fault::BadParameter);
    }
    match object_of(s[0], s[1]).ok_or(Fault::ObjectUnknown)? {
        Object::Class(class) => class_header(s, binaries, analogs, class),
        Object::Points(PointKind::Binary) => point_header(s, PointKind::Binary, binaries),
        Object::Points(PointKind::Analog) => point_header(s, PointKind::Analog, analogs),
    }
}
