// The fields of the call `setup`.
use crate::outputs;
use points::POINTS_MAX;
use restart::{AnalogSetupWords, SetupWords};
use text::{Words, WrongWord};

// What a setup line asks for. The counts are as given, and may be past the arrays, which are fixed memory: the outstation refuses such a setup.
#[derive(Clone, Copy)]
pub struct Setup {
    pub setup: SetupWords,
    pub classes: [u8; POINTS_MAX],
    pub binary_count: usize,
    pub analogs: [AnalogSetupWords; POINTS_MAX],
    pub analog_count: usize,
}

// The limit of a gate, where it has one: `-` for none.
fn whole_limit(fields: &mut Words, gate: u8) -> Result<Option<u32>, WrongWord> {
    if gate < 2 {
        fields.nothing(b',')?;
        return Ok(Some(0));
    }
    Ok(fields.signed(b',')?.to_u32())
}

fn float_limit(fields: &mut Words, gate: u8) -> Result<u32, WrongWord> {
    if gate < 2 {
        fields.nothing(b',')?;
        return Ok(0);
    }
    Ok(words::float_bits(fields.real(b',')?))
}

// GAIN,OFFSET,GATE,LIMIT of a float point.
fn float_point(fields: &mut Words, class: u8) -> Result<AnalogSetupWords, WrongWord> {
    let gain = words::float_bits(fields.real(b',')?);
    let offset = words::float_bits(fields.real(b',')?);
    let gate = fields.number(b',', 3)? as u8;
    let limit = float_limit(fields, gate)?;
    Ok(AnalogSetupWords {
        limit,
        gain,
        offset,
        class,
        kind: 2,
        gate,
    })
}

// -,-,GATE,LIMIT of a whole point, the kind as `AnalogSetupWords` has it; none where the limit is one that 32 bits do not hold.
fn whole_point(
    fields: &mut Words,
    class: u8,
    kind: u8,
) -> Result<Option<AnalogSetupWords>, WrongWord> {
    fields.nothing(b',')?;
    fields.nothing(b',')?;
    let gate = fields.number(b',', 3)? as u8;
    let limit = whole_limit(fields, gate)?;
    Ok(limit.map(|limit| AnalogSetupWords {
        limit,
        gain: 0,
        offset: 0,
        class,
        kind,
        gate,
    }))
}

// CLASS,KIND,GAIN,OFFSET,GATE,LIMIT with KIND 1, 2 or 5; none where the limit is one that 32 bits do not hold.
fn analog_of(mut fields: Words) -> Result<Option<AnalogSetupWords>, WrongWord> {
    let class = fields.number(b',', 255)? as u8;
    let analog = match fields.number(b',', 5)? {
        1 => whole_point(&mut fields, class, 0)?,
        2 => whole_point(&mut fields, class, 1)?,
        5 => Some(float_point(&mut fields, class)?),
        _ => return Err(WrongWord),
    };
    fields.finish()?;
    Ok(analog)
}

// BINARY..: so many classes, those past the array not given.
fn classes_of(words: &mut Words, count: usize) -> Result<[u8; POINTS_MAX], WrongWord> {
    let mut classes = [0u8; POINTS_MAX];
    for i in 0..count.min(POINTS_MAX) {
        classes[i] = words.number(b' ', 255)? as u8;
    }
    Ok(classes)
}

// ANALOG..: so many, those past the array not given; none where a limit is one that 32 bits do not hold. The words behind that one are still looked at.
fn analogs_of(
    words: &mut Words,
    count: usize,
) -> Result<Option<[AnalogSetupWords; POINTS_MAX]>, WrongWord> {
    let blank = AnalogSetupWords {
        limit: 0,
        gain: 0,
        offset: 0,
        class: 0,
        kind: 0,
        gate: 0,
    };
    let mut analogs = [blank; POINTS_MAX];
    let mut fits = true;
    for i in 0..count.min(POINTS_MAX) {
        match analog_of(Words::new(words.word(b' ')?))? {
            Some(analog) => analogs[i] = analog,
            None => fits = false,
        }
    }
    Ok(fits.then_some(analogs))
}

// OWN MASTER ARM CONFIRM NB NA NO BINARY.. ANALOG.., and s NS SETPOINT.. or nothing. None where a limit or an end is more than its type
// holds.
pub fn setup_of(mut words: Words) -> Result<Option<Setup>, WrongWord> {
    let own = words.number(b' ', 65535)? as u16;
    let master = words.number(b' ', 65535)? as u16;
    let arm_time = words.number(b' ', 4294967295)? as u32;
    let confirm_time = words.number(b' ', 4294967295)? as u32;
    let binary_count = words.number(b' ', 255)? as usize;
    let analog_count = words.number(b' ', 255)? as usize;
    let relays = words.number(b' ', 255)? as u16;
    let classes = classes_of(&mut words, binary_count)?;
    let analogs = analogs_of(&mut words, analog_count)?;
    let outputs = outputs::outputs_of(&mut words)?;
    words.finish()?;
    let (Some(analogs), Some(outputs)) = (analogs, outputs) else {
        return Ok(None);
    };
    Ok(Some(Setup {
        setup: SetupWords {
            arm_time,
            confirm_time,
            own,
            master,
            outputs: relays,
            analog_output_count: outputs.count,
            analog_outputs: outputs.items,
        },
        classes,
        binary_count,
        analogs,
        analog_count,
    }))
}
