// The session's derivatives, and its saved file.
ghost use Rattle.std.specs.Prelude.{◌≡◌, length};
ghost use Rattle.packed.specs.Writing.{refuse_save, Saved};
ghost use Rattle.sweep.specs.Forward.{Sloped};
ghost use Rattle.sweep.specs.Queries.{Bent};
ghost use Rattle.sweep.specs.Refusals.{refuse_backward, refuse_slope, refuse_bend};
ghost use Rattle.tape.specs.Refusals.{Answered};
ghost use Rattle.tape.specs.Tables.{table_tape};
ghost use Rattle.session.specs.Queries.{Grades, Regraded};
ghost use Rattle.session.specs.States.{state};

use crate::answers::Graded;
use crate::sessions::Session;
use kind::{Kind, Pair};
use sweep::backward;
use tape::{Refusal, Sheet, Table};

// Works out what is stale at or below a register, then walks back over the row.
fn grade<K: Kind>(
    row: &mut [K],
    table: &mut Table,
    register: usize,
    adjoint: &mut [K],
) -> Result<Graded<K>, Refusal>
    ensures { Answered (refuse_backward (table_tape table.old) (length row.old) (length adjoint.old) register) result
        ((row.new ≡ row.old) × (table.new ≡ table.old) × (adjoint.new ≡ adjoint.old))
        (λ answer. Regraded K.Kind.ops K.Kind.means table.old register row.old row.new adjoint.old adjoint.new table.new answer) }
{
    table.check_query(register, adjoint.len() < table.registers())?;
    let worked = table.recompute(row, register)?;
    let operations = backward(table, row, register, adjoint)?;
    Ok(Graded {
        value: row[register],
        worked,
        operations,
    })
}

impl<'a, K: Kind> Session<'a, K> {
    // A register's value as `value` has it, and its gradient in the first entries of the adjoint row, by a walk over the kept values.
    pub fn gradient(&mut self, register: usize, adjoint: &mut [K]) -> Result<Graded<K>, Refusal>
        ensures { Grades K.Kind.ops K.Kind.means (state self.old) register adjoint.old result (state self.new) adjoint.new }
    {
        grade(self.row, &mut self.table, register, adjoint)
    }

    // The slope of a register along a direction, from the controls alone.
    pub fn slope(
        &self,
        register: usize,
        direction: &[K],
        pairs: &mut [Pair<K>],
    ) -> Result<K, Refusal>
        ensures { Answered (refuse_slope (state self.now).tape (length (state self.now).row) (length direction.now) (length pairs.old) register) result
            (pairs.new ≡ pairs.old)
            (Sloped K.Kind.ops K.Kind.means (state self.now).tape (state self.now).row direction.now register pairs.old pairs.new) }
    {
        sweep::slope(&self.table, self.row, direction, register, pairs)
    }

    // The bend of a register along a direction, from the controls alone, in the first entries of `out`.
    pub fn bend(
        &self,
        register: usize,
        direction: &[K],
        pairs: &mut [Pair<K>],
        adjoint: &mut [Pair<K>],
        out: &mut [K],
    ) -> Result<(), Refusal>
        ensures { Answered (refuse_bend (state self.now).tape (length (state self.now).row) (length direction.now) (length pairs.old) (length adjoint.old) (length out.old) register) result
            ((pairs.new ≡ pairs.old) × (adjoint.new ≡ adjoint.old) × (out.new ≡ out.old))
            (λ _. Bent K.Kind.ops K.Kind.means (state self.now).tape (state self.now).row direction.now register pairs.old pairs.new adjoint.old adjoint.new out.old out.new) }
    {
        sweep::bend(
            &self.table,
            self.row,
            direction,
            register,
            pairs,
            adjoint,
            out,
        )
    }

    // Writes the packed file of the tape, and answers its length.
    pub fn save(&self, buf: &mut [u8]) -> Result<usize, Refusal>
        ensures { Answered (refuse_save (state self.now).tape (length buf.old)) result (buf.new ≡ buf.old) (Saved (state self.now).tape buf.old buf.new) }
    {
        packed::save(&self.table, buf)
    }
}
