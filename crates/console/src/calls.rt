// The calls that the outstation itself answers: setup, restart, readings, tables, held events.
use crate::Console;
use line_calls::answers;
use line_calls::answers::{FILL, NotMade};
use link::Station;
use outstation::Head;
use point_calls::readings::ReadingKind;
use point_calls::setup::Setup;
use point_calls::{held, readings, setup};
use text::Words;

impl Console {
    // The outstation's head, for a call that needs one.
    pub fn need_head(&self) -> Result<Head, NotMade> {
        self.unit.head.ok_or(NotMade::NoOutstation)
    }

    // Restarts with a setup; says whether there is an outstation.
    fn begin(&mut self, s: &Setup) -> bool {
        let begun = self.unit.restart(s);
        if begun {
            self.line.begin(Station {
                own: s.setup.own,
                master: s.setup.master,
            });
        } else {
            self.line.end();
        }
        begun
    }

    // setup OWN MASTER ARM CONFIRM NB NA NO BINARY.. ANALOG.., and s NS SETPOINT.. or nothing. It is kept for restarts.
    pub fn setup(&mut self, words: Words) -> Result<(), NotMade> {
        let asked = setup::setup_of(words)?;
        let begun = match &asked {
            Some(s) => self.begin(s),
            None => {
                self.unit.head = None;
                self.line.end();
                false
            }
        };
        if begun {
            self.line.gathered.fill(FILL);
        }
        self.setup = asked;
        answers::answer(&mut self.out, if begun { b"ok" } else { b"no 5" });
        Ok(())
    }

    // restart: set up again as before
    pub fn restart(&mut self, words: Words) -> Result<(), NotMade> {
        words.finish()?;
        self.need_head()?;
        if let Some(s) = self.setup {
            self.begin(&s);
        }
        answers::answer(&mut self.out, b"ok");
        Ok(())
    }

    // bin, ana and flt T I V F
    pub fn reading(&mut self, mut words: Words, kind: ReadingKind) -> Result<(), NotMade> {
        let reading = readings::reading_of(&mut words, b' ', kind)?;
        words.finish()?;
        let head = self.need_head()?;
        let refusal = self.unit.take_reading(head, reading);
        answers::put_taken(&mut self.out, refusal);
        Ok(())
    }

    // table RECORD..: `took COUNT ok` or `took COUNT no N`
    pub fn table(&mut self, words: Words) -> Result<(), NotMade> {
        let table = readings::table_of(words)?;
        let head = self.need_head()?;
        let r = self.unit.take_table(head, &table.readings[..table.count]);
        self.out.put_bytes(b"took ");
        self.out.put_decimal(r.taken as u64);
        self.out.put(b' ');
        answers::put_taken(&mut self.out, r.refusal);
        Ok(())
    }

    pub fn held(&mut self, words: Words) -> Result<(), NotMade> {
        words.finish()?;
        let head = self.need_head()?;
        held::put_held(&mut self.out, &self.unit.held, head.event_count);
        answers::end(&mut self.out);
        Ok(())
    }
}
