// Whether a session can be opened.
ghost use Rattle.std.specs.Prelude.{◌≡◌, false, length, replicate};
ghost use Rattle.tape.specs.Refusals.{Answered};
ghost use Rattle.session.specs.Refusals.{refuse_open};

use kind::Kind;
use tape::{Refusal, Table};

// What a session is opened with, once that was checked: a table of no lines, with every mark clear.
#[derive(Clone, Copy)]
pub struct Opening {
    pub(crate) table: Table,
    ghost empty: { table.count ≡ 0 },
    ghost unmarked: { table.stale ≡ replicate 1024 false },
}

impl Opening {
    // Checks the number of controls, and that the rest row and the register row have a number for each.
    pub fn new<K: Kind>(controls: usize, rest: &[K], row: &[K]) -> Result<Opening, Refusal>
        ensures { Answered (refuse_open controls (length rest.now) (length row.now)) result (Unit {0}) (λ o. o.table.controls ≡ controls) }
    {
        let table = Table::new(controls)?;
        if rest.len() < controls || row.len() < controls {
            return Err(Refusal::Short);
        }
        Ok(Opening { table })
    }
}
