// The table as a sheet.
ghost use Rattle.tape.specs.Tables.{table_tape, table_valid};

use crate::lines::Line;
use crate::refusals::Refusal;
use crate::sheets::Sheet;
use crate::tables::Table;

// (A file's view has the same three methods, a line or two each, over its bytes.)
impl Sheet for Table {
    ghost tape = { table_tape };

    ghost keeps = { table_valid };

    fn controls(&self) -> usize {
        self.controls
    }

    fn count(&self) -> usize {
        self.count
    }

    fn line(&self, j: usize) -> Result<Line, Refusal> {
        if j >= self.count {
            return Err(Refusal::Unknown(j));
        }
        Ok(self.lines[j])
    }
}
