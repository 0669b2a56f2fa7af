// A run of random steps of a session. After every step what the session answers is compared with what the exporter
// answers from the file that the session saves.
use crate::numbers::Number;
use crate::outcomes::Tally;
use crate::queries::{Query, ask, export};
use crate::random::Random;
use crate::rows::Rows;
use session::Session;
use tape::Refusal;

// The longest file of a session with so few registers.
const LONGEST_FILE: usize = 300;

#[derive(Drop)]
pub struct Run<'a, K: Number> {
    pub session: Session<'a, K>,
    pub random: Random,
    pub rows: Rows<K>,
    // the number of the tape's registers
    pub registers: usize,
    pub tally: Tally,
}

impl<'a, K: Number> Run<'a, K> {
    // Adds a line or drops one.
    fn resize(&mut self) -> Result<(), Refusal> {
        if self.random.next() % 8 < 5 {
            let own = self.session.add(self.random.line(self.registers))?;
            self.registers = own.saturating_add(1);
        } else {
            self.session.drop_last()?;
            self.registers = self.registers.saturating_sub(1);
        }
        Ok(())
    }

    // Sets a control or changes a line.
    fn edit(&mut self) -> Result<(), Refusal> {
        if self.random.next() % 2 == 0 {
            let control = self.random.register(5);
            self.session.set(control, self.random.number())
        } else {
            let register = self.random.register(self.registers);
            self.session.change(register, self.random.line(register))
        }
    }

    fn query(&mut self) -> Result<(), Refusal> {
        let r = self.random.register(self.registers);
        self.rows.redirect(&mut self.random);
        let query = match self.random.next() % 4 {
            0 => Query::Value,
            1 => Query::Gradient,
            2 => Query::Slope,
            _ => Query::Bend,
        };
        ask(&mut self.session, query, r, &mut self.rows)?;
        Ok(())
    }

    // (The numbers here and in `query` are draws: one of four, at random.)
    fn step(&mut self) {
        let outcome = match self.random.next() % 4 {
            0 => self.query(),
            1 => self.edit(),
            _ => self.resize(),
        };
        self.tally.call(&outcome);
    }

    // A query of a register, asked of both.
    fn compare(&mut self, file: &[u8], query: Query, r: usize) {
        self.rows.reset();
        let by_session = ask(&mut self.session, query, r, &mut self.rows);
        let by_exporter = export(file, query, r, &mut self.rows);
        let written = self.rows.agree();
        self.tally.comparison(by_session, by_exporter, written);
    }

    // The value of one register, and the gradient of another.
    fn compare_values(&mut self) {
        let mut buffer = [0; LONGEST_FILE];
        let file = self.rows.save(&self.session, &mut buffer);
        for query in [Query::Value, Query::Gradient] {
            let r = self.random.register(self.registers);
            self.compare(file, query, r);
        }
    }

    // The slope and the bend of one register, along one direction.
    fn compare_along(&mut self) {
        let mut buffer = [0; LONGEST_FILE];
        let file = self.rows.save(&self.session, &mut buffer);
        self.rows.redirect(&mut self.random);
        let r = self.random.register(self.registers);
        self.compare(file, Query::Slope, r);
        self.compare(file, Query::Bend, r);
    }

    pub(crate) fn steps(&mut self, count: usize) {
        // (over the steps' numbers: every tenth is followed by more)
        for i in 0..count {
            self.step();
            self.compare_values();
            if i % 10 == 9 {
                self.compare_along();
            }
        }
    }
}
