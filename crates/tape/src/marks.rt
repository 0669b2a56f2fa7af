// The marks of a table's lines: `spread` marks what an edit made stale, `recompute` works out what is stale.
ghost use Rattle.std.specs.Prelude.{◌≡◌, ◌+◌, ◌≤◌, length};
ghost use Rattle.tape.specs.Lines.{reads};
ghost use Rattle.tape.specs.Marks.{touched, Spread, Swept, Recomputed, Waiting, refuse_register};
ghost use Rattle.tape.specs.Refusals.{Answered};
ghost use Rattle.tape.specs.Tables.{table_tape};
ghost use Rattle.tape.specs.Tapes.{registers};

use crate::lines::Line;
use crate::refusals::Refusal;
use crate::sheets::Sheet;
use crate::tables::Table;
use kind::Kind;

impl Table {
    // Whether the register is `q` or that of a marked line.
    fn is_touched(&self, register: usize, q: usize) -> bool
        ensures { result ≡ touched self.now.controls q self.now.stale register }
    {
        register == q
            || register >= self.controls && self.stale.get(register - self.controls) == Some(&true)
    }

    // Whether the line reads `q` or a marked line.
    fn touches(&self, line: Line, q: usize) -> bool
        ensures { result ≡ reads line (touched self.now.controls q self.now.stale) }
    {
        match line.operands() {
            // `|` has no branch, so the proof has one path.
            Some((a, b)) => self.is_touched(a, q) | self.is_touched(b, q),
            None => false,
        }
    }

    // Marks each line that reads `q` or a stale line, going up.
    pub fn spread(&mut self, q: usize)
        ensures tape { table_tape self.new ≡ table_tape self.old }
        ensures marks { Spread (table_tape self.old) q self.old.stale self.new.stale }
    {
        // By index: a line may read one that was marked in this very loop.
        for j in 0..self.count {
            let reached = self.touches(self.lines[j], q);
            self.stale[j] |= reached;
        }
    }

    // Works out each stale line among the first `m`, going up; answers how many were worked out.
    fn sweep<K: Kind>(&mut self, row: &mut [K], m: usize) -> usize
        requires full { registers (table_tape self.old) ≤ length row.old }
        requires within { m ≤ self.old.count }
        ensures tape { table_tape self.new ≡ table_tape self.old }
        ensures swept { Swept K.Kind.ops K.Kind.means (table_tape self.old) m row.old self.old.stale row.new self.new.stale result }
    {
        let mut worked = 0;
        // By index: a field beside ghost fields cannot be lent to an iterator that writes.
        for j in 0..m {
            if self.stale[j] {
                row[self.controls + j] = self.lines[j].apply(row);
                self.stale[j] = false;
                worked += 1;
            }
        }
        worked
    }

    // Works out each stale line at or below a register, going up; answers how many were worked out.
    pub fn recompute<K: Kind>(&mut self, row: &mut [K], register: usize) -> Result<usize, Refusal>
        ensures { Answered (refuse_register (table_tape self.old) (length row.old) register) result ((row.new ≡ row.old) × (self.new ≡ self.old))
            (λ worked. Recomputed K.Kind.ops K.Kind.means self.old register row.old row.new self.new worked) }
    {
        self.check_query(register, row.len() < self.registers())?;
        let m = (register + 1).saturating_sub(self.controls);
        Ok(self.sweep(row, m))
    }

    // The register of the lowest stale line.
    pub fn waiting(&self) -> Option<usize>
        ensures { Waiting (table_tape self.now) self.now.stale result }
    {
        let j = self.stale[..self.count].iter().position(|mark| *mark)?;
        Some(self.controls + j)
    }
}
