// The calls `record` and `station`: the line record, and frames for the station.
use crate::answers;
use crate::answers::{Answers, NotMade, Refusal};
use crate::session::LineSession;
use frame::FRAME_MAX;
use link::{BLOCK_COUNTS, COUNT_MAX, LineRecord, Station, Taken};
use text::{Words, WrongWord};

// A count of the line record.
fn count_of(fields: &mut Words) -> Result<u16, WrongWord> {
    Ok(fields.number(b',', u64::from(COUNT_MAX))? as u16)
}

// A count for each block, or no more words: then each is 0.
fn blocks_of(fields: &mut Words) -> Result<[u16; BLOCK_COUNTS], WrongWord> {
    let mut blocks = [0u16; BLOCK_COUNTS];
    if !fields.is_finished() {
        for block in &mut blocks {
            *block = count_of(fields)?;
        }
    }
    Ok(blocks)
}

// Seven counts, and one for each block or none of these.
fn record_of(mut fields: Words) -> Result<LineRecord, WrongWord> {
    let record = LineRecord {
        accepted: count_of(&mut fields)?,
        short: count_of(&mut fields)?,
        start: count_of(&mut fields)?,
        header_check: count_of(&mut fields)?,
        length: count_of(&mut fields)?,
        block_check: count_of(&mut fields)?,
        not_taken: count_of(&mut fields)?,
        blocks: blocks_of(&mut fields)?,
    };
    fields.finish()?;
    Ok(record)
}

// ` rec C,…,C`: seven counts, and one for each block
fn put_record(out: &mut Answers, record: &LineRecord) {
    out.put_bytes(b" rec");
    answers::number(out, b' ', record.accepted);
    answers::number(out, b',', record.short);
    answers::number(out, b',', record.start);
    answers::number(out, b',', record.header_check);
    answers::number(out, b',', record.length);
    answers::number(out, b',', record.block_check);
    answers::number(out, b',', record.not_taken);
    for &count in &record.blocks {
        answers::number(out, b',', count);
    }
}

// `reply CC HEX`, with the reply's frame as frame writing gives it.
fn put_reply(out: &mut Answers, control: u8, station: Station) {
    let mut frame = [0u8; FRAME_MAX];
    out.put_bytes(b"reply ");
    out.put_byte(control);
    out.put(b' ');
    if let Ok(n) = link::write_reply(&mut frame, station, control) {
        out.put_hex(&frame[..n.min(FRAME_MAX)]);
    }
}

impl LineSession {
    // record C,…,C: 23 counts, or 7
    pub fn set_record(&mut self, mut words: Words, out: &mut Answers) -> Result<(), NotMade> {
        let record = record_of(Words::new(words.word(b' ')?))?;
        words.finish()?;
        self.record = record;
        answers::answer(out, b"ok");
        Ok(())
    }

    // station: a frame came; it is taken and counted, and the answer told.
    pub fn station(&mut self, station: Station, frame: &[u8], lent: &mut [u8], out: &mut Answers) {
        lent.fill(answers::FILL);
        let used = match link::receive(&mut self.record, station, frame, lent) {
            Ok(Taken::UserData(n)) => answers::put_outcome(out, Ok(n), b"data ", lent),
            Ok(Taken::Reply(control)) => {
                put_reply(out, control, station);
                0
            }
            Err(why) => answers::put_outcome(out, Err(Refusal::from(why)), b"", lent),
        };
        put_record(out, &self.record);
        answers::end_past(out, used, lent);
    }
}
