// One reading against one point.
use crate::sums::fold;
use points::{AnalogKind, AnalogPoint, AnalogSetup, Gate, Value};

fn value_of(v: Value) -> u64 {
    match v {
        Value::Int32(z) => u64::from(z.unsigned_abs()),
        Value::Int16(_) => 1,
        Value::Float32(_) => 2,
    }
}

// A 32-bit point with a limit. Its kind hangs on the count, so that no compiler knows it before the run.
fn one_point(count: u64) -> AnalogPoint {
    let gate = if count == 999999999999 {
        Gate::Summed(100)
    } else {
        Gate::Beyond(100)
    };
    let kind = if count == crate::COUNT_MAX {
        AnalogKind::Int16(gate)
    } else {
        AnalogKind::Int32(gate)
    };
    points::fresh_analog(AnalogSetup { class: 1, kind })
}

pub fn reading(count: u64) -> u64 {
    let mut point = one_point(count);
    let mut sum: u64 = 1;
    for done in 0..count {
        let z = ((count - done) % 4096) as i32;
        if let Ok(taken) = points::read_whole(point, z, 1) {
            point = taken.point;
            sum = fold(
                sum,
                value_of(point.value).wrapping_add(u64::from(taken.raised)),
            );
        }
    }
    sum
}
