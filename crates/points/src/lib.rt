// One reading against one point: scaling, reporting gates, the point's record (document 01, "Readings").
#![tactic(auto)]

ghost use Rattle.std.specs.Prelude.{◌≡◌, ◌≤◌, min, nat_abs, ◌-ℤ◌, true, false, cond, OnOk, IfErr};
ghost use Rattle.points.specs.declared.ReadingRefusal.TheVariants.{HostFlags};
ghost use Rattle.points.specs.Scaling.{scale_value, limited_of, clamp_value};
ghost use Rattle.points.specs.Gate.{float_distance, whole_gate, float_gate};
ghost use Rattle.laws.specs.Limits.{points_max};
ghost use Rattle.points.specs.Reading.{
  flags_above,
  shown_flags,
  is_reported,
  is_raised,
  analog_after,
  gate_after,
  read_binary,
  read_int32,
  read_int16,
  read_float32,
  read_whole,
  read_float,
  taken_of,
};
ghost use Rattle.points.specs.Setup.{
  class_ok,
  scale_ok,
  limit_ok,
  float_gate_ok,
  kind_ok,
  analog_ok,
  fresh_binary,
  fresh_gate,
  fresh_with,
  fresh_analog,
};

// The largest class of a point; class 0 raises no events.
pub const CLASS_MAX: u8 = 3;

// The largest value of host flags: online, restart, communication lost, remote forced, local forced.
pub const HOST_FLAGS_MAX: u8 = 31;

// Over-range, bit 5 of the shown flags.
pub const OVER_RANGE: u8 = 32;

// The flags of a point before its first reading: restart.
pub const FRESH_FLAGS: u8 = 2;

// A value as a point's record and an event hold it: a 32-bit number, a 16-bit number or a float. `AnalogState` and `AnalogKind` have the same
// three kinds with other contents: one enum over three parameters would be no plainer, as each use would name all three.
#[derive(Clone, Copy)]
pub enum Value {
    Int32(i32),
    Int16(i16),
    Float32(f32),
}

// A float point's scale. Both are finite.
#[derive(Clone, Copy)]
pub struct Scale {
    pub gain: f32,
    pub offset: f32,
}

// A reporting gate. The limit of a whole point's is a `u32`, that of a float point's an `f32`, finite and not below 0.
#[derive(Clone, Copy)]
pub enum Gate<L> {
    Never,
    AnyChange,
    Beyond(L),
    Summed(L),
}

// What a gate works on. Of a whole point: readings before clamping; of a float point: scaled values, an infinite one replaced.
#[derive(Clone, Copy)]
pub struct GateState<V, L> {
    pub gate: Gate<L>,
    pub reported_value: V,
    pub previous: V,
    pub sum: L,
}

// The kind of an analog point, with what its gate works on.
#[derive(Clone, Copy)]
pub enum AnalogState {
    Int32(GateState<i32, u32>),
    Int16(GateState<i32, u32>),
    Float32(GateState<f32, f32>, Scale),
}

// A binary point's record. `flags` are the shown ones, `reported_flags` those last reported.
#[derive(Clone, Copy)]
pub struct BinaryPoint {
    pub class: u8,
    pub seen: bool,
    pub state: bool,
    pub flags: u8,
    pub reported_flags: u8,
}

// An analog point's record. `value` and `flags` are the shown ones, `reported_flags` those last reported.
#[derive(Clone, Copy)]
pub struct AnalogPoint {
    pub class: u8,
    pub seen: bool,
    pub value: Value,
    pub flags: u8,
    pub reported_flags: u8,
    pub gate_state: AnalogState,
}

// How many binary and how many analog inputs there may be.
pub const POINTS_MAX: usize = 64;

// How many points of a kind are installed: a count past the array has all of it.
pub fn installed(count: usize) -> usize
    ensures { result ≡ min count points_max }
{
    count.min(POINTS_MAX)
}

// Why a reading is refused. The time is tested before the point.
#[derive(Clone, Copy, Debug, PartialEq, Eq)]
pub enum ReadingRefusal {
    // 1: time at or above 2^48, or before the last accepted call's.
    Time,
    // 2: no such point of that kind.
    NoSuchPoint,
    // 3: float reading not finite.
    NotFinite,
    // 4: host flags above 31.
    HostFlags,
}

impl ReadingRefusal {
    ghost use Rattle.points.specs.Reading.{reading_refusal_number};

    // Document 01's number of it.
    pub fn number(self) -> u8
        ensures { result ≡ reading_refusal_number self }
    {
        match self {
            ReadingRefusal::Time => 1,
            ReadingRefusal::NoSuchPoint => 2,
            ReadingRefusal::NotFinite => 3,
            ReadingRefusal::HostFlags => 4,
        }
    }
}

// What a reading that is taken comes to: the point's new record, and whether an event is raised. Two answers, both used whatever the other is.
#[derive(Clone, Copy)]
pub struct Taken<P> {
    pub point: P,
    pub raised: bool,
}

// The kind of an analog point as a setup gives it.
#[derive(Clone, Copy)]
pub enum AnalogKind {
    Int32(Gate<u32>),
    Int16(Gate<u32>),
    Float32(Gate<f32>, Scale),
}

#[derive(Clone, Copy)]
pub struct AnalogSetup {
    pub class: u8,
    pub kind: AnalogKind,
}

// A value as a point shows it, scaled or clamped, and whether it is shown with over-range. Two answers, both used whatever the other is.
#[derive(Clone, Copy)]
pub struct Saturated<V> {
    pub value: V,
    pub over: bool,
}

// Whether the gate passes, and the sum after this reading. Two answers, both used whatever the other is.
#[derive(Clone, Copy)]
pub struct Gated<L> {
    pub pass: bool,
    pub sum: L,
}

// An infinity is replaced by the largest finite value of its sign, with over-range.
fn limited(v: f32) -> Saturated<f32>
    ensures { result ≡ limited_of v }
{
    Saturated {
        value: v.clamp(f32::MIN, f32::MAX),
        over: v.is_infinite(),
    }
}

// The value that a float point shows: reading × gain, then + offset, each rounded once.
pub fn scale_value(x: f32, s: Scale) -> Saturated<f32>
    ensures { result ≡ scale_value s x }
{
    limited(x * s.gain + s.offset)
}

// A value outside the 16-bit range shows the nearer end, with over-range.
pub fn clamp_value(v: i32) -> Saturated<i16>
    ensures { result ≡ clamp_value v }
{
    let value = v.clamp(i16::MIN as i32, i16::MAX as i32);
    Saturated {
        value: value as i16,
        over: value != v,
    }
}

// The exact distance of two whole readings.
pub fn whole_distance(a: i32, b: i32) -> u32
    ensures { result ≡ nat_abs (a -ℤ b) }
{
    a.abs_diff(b)
}

// The distance of two floats: their difference, rounded once, with its sign dropped.
pub fn float_distance(a: f32, b: f32) -> f32
    ensures { result ≡ float_distance a b }
{
    (a - b).abs()
}

// A whole point's gate: differences and sums are exact.
pub fn gate_whole(t: GateState<i32, u32>, value: i32) -> Gated<u32>
    ensures { result ≡ whole_gate t value }
{
    let sum = t.sum;
    match t.gate {
        Gate::Never => Gated { pass: false, sum },
        Gate::AnyChange => Gated {
            pass: value != t.reported_value,
            sum,
        },
        Gate::Beyond(limit) => Gated {
            pass: limit < whole_distance(value, t.reported_value),
            sum,
        },
        Gate::Summed(limit) => {
            let total = u64::from(sum) + u64::from(whole_distance(value, t.previous));
            if u64::from(limit) < total {
                Gated { pass: true, sum: 0 }
            } else {
                Gated {
                    pass: false,
                    sum: total as u32,
                }
            }
        }
    }
}

// A float point's gate: no twin of a whole point's, as a difference and a sum are rounded, and no wider type holds the sum.
pub fn gate_float(t: GateState<f32, f32>, value: f32) -> Gated<f32>
    ensures { result ≡ float_gate t value }
{
    let sum = t.sum;
    match t.gate {
        Gate::Never => Gated { pass: false, sum },
        Gate::AnyChange => Gated {
            pass: value != t.reported_value,
            sum,
        },
        Gate::Beyond(limit) => Gated {
            pass: limit < float_distance(value, t.reported_value),
            sum,
        },
        Gate::Summed(limit) => {
            let total = sum + float_distance(value, t.previous);
            if limit < total {
                Gated {
                    pass: true,
                    sum: 0.0,
                }
            } else {
                Gated {
                    pass: false,
                    sum: total,
                }
            }
        }
    }
}

// The shown flags: the host's, with over-range.
fn shown_flags(flags: u8, over: bool) -> u8
    requires { flags ≤ 31 }
    ensures { result ≡ shown_flags over flags }
{
    if over { flags + OVER_RANGE } else { flags }
}

// Whether a reading counts as reported.
fn is_reported(seen: bool, flags: u8, last: u8, pass: bool) -> bool
    ensures { result ≡ is_reported seen flags last pass }
{
    !seen || flags != last || pass
}

// Whether a reading raises an event.
fn is_raised(seen: bool, reported: bool, class: u8) -> bool
    ensures { result ≡ is_raised seen reported class }
{
    seen && reported && 1 <= class && class <= CLASS_MAX
}

// The flags last reported.
fn last_flags(reported: bool, flags: u8, last: u8) -> u8
    ensures { result ≡ cond reported flags last }
{
    if reported { flags } else { last }
}

// Host flags are 0 to 31.
fn check_flags(flags: u8) -> Result<(), ReadingRefusal>
    ensures ok { OnOk result (flags_above flags ≡ false) }
    ensures err { IfErr result (λ why. (why ≡ HostFlags) × (flags_above flags ≡ true)) }
{
    if HOST_FLAGS_MAX < flags {
        Err(ReadingRefusal::HostFlags)
    } else {
        Ok(())
    }
}

// One binary reading against one point.
pub fn read_binary(
    p: BinaryPoint,
    state: bool,
    flags: u8,
) -> Result<Taken<BinaryPoint>, ReadingRefusal>
    ensures { taken_of result ≡ read_binary p state flags }
{
    check_flags(flags)?;
    let report = is_reported(p.seen, flags, p.reported_flags, state != p.state);
    Ok(Taken {
        point: BinaryPoint {
            class: p.class,
            seen: true,
            state,
            flags,
            reported_flags: last_flags(report, flags, p.reported_flags),
        },
        raised: is_raised(p.seen, report, p.class),
    })
}

// What a gate works on next; sum is what the gate left.
fn gate_after<V: Copy, L: Copy>(
    t: GateState<V, L>,
    value: V,
    reported: bool,
    sum: L,
    none: L,
) -> GateState<V, L>
    ensures { result ≡ gate_after t value reported sum none }
{
    GateState {
        gate: t.gate,
        reported_value: if reported { value } else { t.reported_value },
        previous: value,
        sum: if reported { none } else { sum },
    }
}

// The point's record after a reading that shows this value and these flags.
fn analog_after(
    p: AnalogPoint,
    value: Value,
    flags: u8,
    reported: bool,
    gate_state: AnalogState,
) -> Taken<AnalogPoint>
    ensures { result ≡ analog_after p value flags reported gate_state }
{
    Taken {
        point: AnalogPoint {
            class: p.class,
            seen: true,
            value,
            flags,
            reported_flags: last_flags(reported, flags, p.reported_flags),
            gate_state,
        },
        raised: is_raised(p.seen, reported, p.class),
    }
}

// A reading of a 32-bit point.
fn read_int32(
    p: AnalogPoint,
    t: GateState<i32, u32>,
    z: i32,
    flags: u8,
) -> Result<Taken<AnalogPoint>, ReadingRefusal>
    ensures { taken_of result ≡ read_int32 p t z flags }
{
    check_flags(flags)?;
    let gated = gate_whole(t, z);
    let report = is_reported(p.seen, flags, p.reported_flags, gated.pass);
    let next = gate_after(t, z, report, gated.sum, 0);
    Ok(analog_after(p, Value::Int32(z), flags, report, AnalogState::Int32(next)))
}

// A reading of a 16-bit point. No twin of a 32-bit one's: the value is clamped, and the flags follow.
fn read_int16(
    p: AnalogPoint,
    t: GateState<i32, u32>,
    z: i32,
    flags: u8,
) -> Result<Taken<AnalogPoint>, ReadingRefusal>
    ensures { taken_of result ≡ read_int16 p t z flags }
{
    check_flags(flags)?;
    let gated = gate_whole(t, z);
    let c = clamp_value(z);
    let f = shown_flags(flags, c.over);
    let report = is_reported(p.seen, f, p.reported_flags, gated.pass);
    let next = gate_after(t, z, report, gated.sum, 0);
    Ok(analog_after(
        p,
        Value::Int16(c.value),
        f,
        report,
        AnalogState::Int16(next),
    ))
}

// A reading of a float point.
fn read_float32(
    p: AnalogPoint,
    t: GateState<f32, f32>,
    s: Scale,
    x: f32,
    flags: u8,
) -> Result<Taken<AnalogPoint>, ReadingRefusal>
    ensures { taken_of result ≡ read_float32 p t s x flags }
{
    if !x.is_finite() {
        return Err(ReadingRefusal::NotFinite);
    }
    check_flags(flags)?;
    let v = scale_value(x, s);
    let gated = gate_float(t, v.value);
    let f = shown_flags(flags, v.over);
    let report = is_reported(p.seen, f, p.reported_flags, gated.pass);
    let next = gate_after(t, v.value, report, gated.sum, 0.0);
    Ok(analog_after(
        p,
        Value::Float32(v.value),
        f,
        report,
        AnalogState::Float32(next, s),
    ))
}

// One whole reading against one analog point.
pub fn read_whole(p: AnalogPoint, z: i32, flags: u8) -> Result<Taken<AnalogPoint>, ReadingRefusal>
    ensures { taken_of result ≡ read_whole p z flags }
{
    match p.gate_state {
        AnalogState::Int32(t) => read_int32(p, t, z, flags),
        AnalogState::Int16(t) => read_int16(p, t, z, flags),
        AnalogState::Float32(_, _) => Err(ReadingRefusal::NoSuchPoint),
    }
}

// One float reading against one analog point.
pub fn read_float(p: AnalogPoint, x: f32, flags: u8) -> Result<Taken<AnalogPoint>, ReadingRefusal>
    ensures { taken_of result ≡ read_float p x flags }
{
    match p.gate_state {
        AnalogState::Int32(_) | AnalogState::Int16(_) => Err(ReadingRefusal::NoSuchPoint),
        AnalogState::Float32(t, s) => read_float32(p, t, s, x, flags),
    }
}

// ---- Setup: what a point may be given

pub fn class_ok(class: u8) -> bool
    ensures { result ≡ class_ok class }
{
    class <= CLASS_MAX
}

fn scale_ok(s: Scale) -> bool
    ensures { result ≡ scale_ok s }
{
    s.gain.is_finite() && s.offset.is_finite()
}

fn limit_ok(limit: f32) -> bool
    ensures { result ≡ limit_ok limit }
{
    limit.is_finite() && 0.0 <= limit
}

fn float_gate_ok(g: Gate<f32>) -> bool
    ensures { result ≡ float_gate_ok g }
{
    match g {
        Gate::Never | Gate::AnyChange => true,
        Gate::Beyond(limit) | Gate::Summed(limit) => limit_ok(limit),
    }
}

fn kind_ok(k: AnalogKind) -> bool
    ensures { result ≡ kind_ok k }
{
    match k {
        AnalogKind::Int32(_) | AnalogKind::Int16(_) => true,
        AnalogKind::Float32(g, s) => float_gate_ok(g) && scale_ok(s),
    }
}

// Whether an analog point's setup keeps the limits.
pub fn analog_ok(a: AnalogSetup) -> bool
    ensures { result ≡ analog_ok a }
{
    class_ok(a.class) && kind_ok(a.kind)
}

// A binary point before its first reading.
pub fn fresh_binary(class: u8) -> BinaryPoint
    ensures { result ≡ fresh_binary class }
{
    BinaryPoint {
        class,
        seen: false,
        state: false,
        flags: FRESH_FLAGS,
        reported_flags: FRESH_FLAGS,
    }
}

fn fresh_gate<V: Copy, L: Copy>(gate: Gate<L>, value: V, sum: L) -> GateState<V, L>
    ensures { result ≡ fresh_gate gate value sum }
{
    GateState {
        gate,
        reported_value: value,
        previous: value,
        sum,
    }
}

fn fresh_with(class: u8, value: Value, gate_state: AnalogState) -> AnalogPoint
    ensures { result ≡ fresh_with class value gate_state }
{
    AnalogPoint {
        class,
        seen: false,
        value,
        flags: FRESH_FLAGS,
        reported_flags: FRESH_FLAGS,
        gate_state,
    }
}

// An analog point before its first reading.
pub fn fresh_analog(a: AnalogSetup) -> AnalogPoint
    ensures { result ≡ fresh_analog a }
{
    let (value, gate_state) = match a.kind {
        AnalogKind::Int32(g) => (Value::Int32(0), AnalogState::Int32(fresh_gate(g, 0, 0))),
        AnalogKind::Int16(g) => (Value::Int16(0), AnalogState::Int16(fresh_gate(g, 0, 0))),
        AnalogKind::Float32(g, s) => (
            Value::Float32(0.0),
            AnalogState::Float32(fresh_gate(g, 0.0, 0.0), s),
        ),
    };
    fresh_with(a.class, value, gate_state)
}
