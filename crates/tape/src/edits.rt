// The edits of a table, each of which may be declined.
ghost use Rattle.std.specs.Prelude.{◌≡◌};
ghost use Rattle.tape.specs.Refusals.{Answered, refuse_controls, refuse_append, refuse_replace, refuse_remove};
ghost use Rattle.tape.specs.Tables.{table_tape, Blank, Appended, Replaced, Removed};

use crate::lines::Line;
use crate::refusals::Refusal;
use crate::tables::Table;

impl Table {
    // A table of no lines, with every mark clear.
    pub fn new(controls: usize) -> Result<Table, Refusal>
        ensures { Answered (refuse_controls controls) result (Unit {0}) (Blank controls) }
    {
        if controls < 1 || controls > 128 {
            return Err(Refusal::Controls);
        }
        Ok(Table {
            controls,
            count: 0,
            lines: [Line::Constant(0); 1024],
            stale: [false; 1024],
        })
    }

    // One line more, marked.
    pub fn append(&mut self, line: Line) -> Result<(), Refusal>
        ensures { Answered (refuse_append (table_tape self.old) line) result (self.new ≡ self.old) (λ _. Appended self.old line self.new) }
    {
        if self.count >= 1024 {
            return Err(Refusal::Full);
        }
        line.admit_at(self.controls + self.count)?;
        self.lines[self.count] = line;
        self.stale[self.count] = true;
        self.count += 1;
        Ok(())
    }

    // Another line, marked, at a line's register.
    pub fn replace(&mut self, register: usize, line: Line) -> Result<(), Refusal>
        ensures { Answered (refuse_replace (table_tape self.old) register line) result (self.new ≡ self.old) (λ _. Replaced self.old register line self.new) }
    {
        if register < self.controls || register >= self.controls + self.count {
            return Err(Refusal::Unknown(register));
        }
        line.admit_at(register)?;
        let j = register - self.controls;
        self.lines[j] = line;
        self.stale[j] = true;
        Ok(())
    }

    // The last line and its mark taken off.
    pub fn remove_last(&mut self) -> Result<(), Refusal>
        ensures { Answered (refuse_remove (table_tape self.old)) result (self.new ≡ self.old) (λ _. Removed self.old self.new) }
    {
        if self.count == 0 {
            return Err(Refusal::Empty);
        }
        self.count -= 1;
        self.stale[self.count] = false;
        Ok(())
    }
}
