// The analog outputs of the call `setup`, behind its analogs: nothing, or s NS SETPOINT..
use analog_outputs::{ANALOG_OUTPUTS_MAX, AnalogOutputWords};
use text::{Words, WrongWord};

// The first `count`, as given: those past the array, which is fixed memory, are not given, and the outstation refuses the setup.
#[derive(Clone, Copy)]
pub struct Outputs {
    pub items: [AnalogOutputWords; ANALOG_OUTPUTS_MAX],
    pub count: u16,
}

// An end's bits, where 32 bits hold it. The kind is as `AnalogOutputWords` has it.
fn end_of(fields: &mut Words, kind: u8) -> Result<Option<u32>, WrongWord> {
    if kind == 2 {
        return Ok(Some(words::float_bits(fields.real(b',')?)));
    }
    Ok(fields.signed(b',')?.to_i32().map(words::signed_bits))
}

// KIND,LOW,HIGH with KIND 1, 2 or 3; none where an end is one that 32 bits do not hold.
fn output_of(mut fields: Words) -> Result<Option<AnalogOutputWords>, WrongWord> {
    let kind = match fields.number(b',', 3)? {
        1 => 0,
        2 => 1,
        3 => 2,
        _ => return Err(WrongWord),
    };
    let low = end_of(&mut fields, kind)?;
    let high = end_of(&mut fields, kind)?;
    fields.finish()?;
    Ok(match (low, high) {
        (Some(low), Some(high)) => Some(AnalogOutputWords { low, high, kind }),
        _ => None,
    })
}

// Nothing, or s NS SETPOINT..; none where an end is one that 32 bits do not hold. The words behind that one are still looked at.
pub fn outputs_of(words: &mut Words) -> Result<Option<Outputs>, WrongWord> {
    let none = AnalogOutputWords {
        low: 0,
        high: 0,
        kind: 0,
    };
    let mut outputs = Outputs {
        items: [none; ANALOG_OUTPUTS_MAX],
        count: 0,
    };
    if words.is_finished() {
        return Ok(Some(outputs));
    }
    if !matches!(words.word(b' ')?, [b's']) {
        return Err(WrongWord);
    }
    outputs.count = words.number(b' ', 255)? as u16;
    let n = (outputs.count as usize).min(ANALOG_OUTPUTS_MAX);
    let mut fits = true;
    for i in 0..n {
        match output_of(Words::new(words.word(b' ')?))? {
            Some(output) => outputs.items[i] = output,
            None => fits = false,
        }
    }
    Ok(fits.then_some(outputs))
}
