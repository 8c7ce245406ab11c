// The objects of a class 0 response: binaries, and analogs whose kinds take turns.
use crate::stations::POINTS;
use crate::sums::{byte_at, digest, fold, fold_all};
use application::FRAGMENT_MAX;
use event_store::{BufferStatus, EVENT_WORDS};
use point_store::{ANALOG_WORDS, BINARY_WORDS, Installed};
use points::{AnalogKind, AnalogPoint, AnalogSetup, BinaryPoint, Gate, POINTS_MAX, Scale};
use static_objects::Points;

fn kind_of(i: usize) -> AnalogKind {
    match i % 3 {
        0 => AnalogKind::Int32(Gate::AnyChange),
        1 => AnalogKind::Int16(Gate::AnyChange),
        _ => AnalogKind::Float32(
            Gate::AnyChange,
            Scale {
                gain: 1.0,
                offset: 0.5,
            },
        ),
    }
}

fn analog_of(i: usize) -> AnalogPoint {
    let fresh = points::fresh_analog(AnalogSetup {
        class: 2,
        kind: kind_of(i),
    });
    let taken = if i % 3 == 2 {
        points::read_float(fresh, 2.25, 1)
    } else {
        points::read_whole(fresh, (i % 64) as i32, 1)
    };
    match taken {
        Ok(t) => t.point,
        Err(_) => fresh,
    }
}

fn binary_of(state: bool, flags: u8) -> BinaryPoint {
    let fresh = points::fresh_binary(1);
    match points::read_binary(fresh, state, flags) {
        Ok(t) => t.point,
        Err(_) => fresh,
    }
}

// So many points of each kind. One binary changes at each turn; nothing is held.
pub fn class_zero(count: u64, n: usize) -> u64 {
    let mut binaries = [0u32; BINARY_WORDS];
    let mut analogs = [0u32; ANALOG_WORDS];
    let mut held = [0u64; EVENT_WORDS];
    let mut out = [0u8; FRAGMENT_MAX];
    for i in 0..POINTS_MAX {
        point_store::store_binary(&mut binaries, i, binary_of(true, 1));
        point_store::store_analog(&mut analogs, i, analog_of(i));
    }
    let installed = Installed {
        binaries: n,
        analogs: n,
    };
    let none = BufferStatus {
        count: 0,
        overflow: false,
    };
    let mut sum: u64 = 1;
    for done in 0..count {
        let left = count - done;
        let k = (left % POINTS) as usize;
        point_store::store_binary(&mut binaries, k, binary_of(left % 3 == 0, 1));
        let points = Points {
            binaries: &binaries,
            analogs: &analogs,
            installed,
        };
        let r = read::respond(&mut out, &[60, 1, 6], points, &mut held, none);
        let i = (sum % 1024) as usize;
        sum = fold(sum, (r.size as u64).wrapping_add(byte_at(&out, i)));
    }
    digest(fold_all(sum, &out), &held)
}
