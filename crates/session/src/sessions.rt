// An editing session: a table, and a register row that the host lends.
ghost use Rattle.std.specs.Prelude.{◌≡◌};
ghost use Rattle.session.specs.Rows.{copied};
ghost use Rattle.session.specs.States.{state, Opened, Sets, Adds, Changes, Drops, Asks, Waits, Shows};

use crate::openings::Opening;
use kind::Kind;
use tape::{Line, Refusal, Sheet, Table};

#[derive(Drop)]
pub struct Session<'a, K: Kind> {
    pub(crate) row: &'a mut [K],
    pub(crate) table: Table,
}

// A register's value, and how many lines were worked out for it.
#[derive(Clone, Copy)]
pub struct Answer<K> {
    pub value: K,
    pub worked: usize,
}

// Copies the first `n` numbers, as far as both rows go.
fn copy_front<K: Copy>(n: usize, from: &[K], to: &mut [K])
    ensures { to.new ≡ copied n from.now to.old }
{
    let m = n.min(from.len()).min(to.len());
    to[..m].copy_from_slice(&from[..m]);
}

impl<'a, K: Kind> Session<'a, K> {
    // Opens a session with its controls at the numbers of the rest row.
    pub fn open(opening: Opening, rest: &[K], row: &'a mut [K]) -> Session<'a, K>
        ensures { Opened opening.table.controls rest.now row.old (state result) }
    {
        let table = opening.table;
        copy_front(table.controls(), rest, row);
        Session { row, table }
    }

    // Sets a control.
    pub fn set(&mut self, control: usize, x: K) -> Result<(), Refusal>
        ensures { Sets (state self.old) control x result (state self.new) }
    {
        if control >= self.control_count() {
            return Err(Refusal::Unknown(control));
        }
        if self.row.len() < self.table.registers() {
            return Err(Refusal::Short);
        }
        self.row[control] = x;
        self.table.spread(control);
        Ok(())
    }

    // Adds a line at the end, stale as yet; answers its register.
    pub fn add(&mut self, line: Line) -> Result<usize, Refusal>
        ensures { Adds (state self.old) line result (state self.new) }
    {
        let own = self.table.registers();
        if self.row.len() <= own {
            return Err(Refusal::Full);
        }
        self.table.append(line)?;
        Ok(own)
    }

    // Puts another line at a line's register.
    pub fn change(&mut self, register: usize, line: Line) -> Result<(), Refusal>
        ensures { Changes (state self.old) register line result (state self.new) }
    {
        self.table.replace(register, line)?;
        self.table.spread(register);
        Ok(())
    }

    // Drops the last line.
    pub fn drop_last(&mut self) -> Result<(), Refusal>
        ensures { Drops (state self.old) result (state self.new) }
    {
        self.table.remove_last()
    }

    // A register's value. Only stale lines at or below it are worked out.
    pub fn value(&mut self, register: usize) -> Result<Answer<K>, Refusal>
        ensures { Asks K.Kind.ops K.Kind.means (state self.old) register result (state self.new) }
    {
        let worked = self.table.recompute(self.row, register)?;
        Ok(Answer {
            value: self.row[register],
            worked,
        })
    }

    // The register of the lowest stale line.
    pub fn waiting(&self) -> Option<usize>
        ensures { Waits (state self.now) result }
    {
        self.table.waiting()
    }

    // The number of controls.
    pub fn control_count(&self) -> usize
        ensures { result ≡ (state self.now).tape.controls }
    {
        self.table.controls()
    }

    // Copies the controls' numbers out.
    pub fn controls(&self, out: &mut [K]) -> Result<(), Refusal>
        ensures { Shows (state self.now) out.old result out.new }
    {
        let n = self.control_count();
        if self.row.len() < self.table.registers() || out.len() < n {
            return Err(Refusal::Short);
        }
        copy_front(n, self.row, out);
        Ok(())
    }
}
