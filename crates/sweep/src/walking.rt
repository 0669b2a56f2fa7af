// The backward walk: adjoints handed down from a register to those that it was worked out from.
ghost use Rattle.std.specs.Prelude.{◌≡◌, ◌<◌, map, length, replicate};
ghost use Rattle.tape.specs.Derivatives.{line_derivative};
ghost use Rattle.tape.specs.Lines.{Below};
ghost use Rattle.tape.specs.Refusals.{Answered};
ghost use Rattle.tape.specs.Rows.{at, unit};
ghost use Rattle.tape.specs.Tapes.{registers};
ghost use Rattle.tape.specs.Values.{backward_cost, backward_count};
ghost use Rattle.sweep.specs.Refusals.{refuse_backward};
ghost use Rattle.sweep.specs.Reverse.{Gains, Transposes, Walked};

use crate::filling::line_of;
use crate::rows::entry;
use kind::Kind;
use tape::{Line, Refusal, Sheet};

// Adds x to a register's entry.
fn give<K: Kind>(row: &mut [K], register: u16, x: K)
    requires { register < length row.old }
    ensures { Gains K.Kind.ops (map K.Kind.means row.old) (map K.Kind.means row.new) (λ m. K.Kind.ops.times (K.Kind.means x) (at K.Kind.ops m register)) }
{
    let r = register as usize;
    let old = row[r];
    row[r] = old.sum(x);
}

// Gives a line's entry q on to the registers that it reads. Answers how many operations that took.
fn give_back<K: Kind>(line: Line, q: K, values: &[K], adjoint: &mut [K]) -> usize
    requires valued { Below (length values.now) line }
    requires held { Below (length adjoint.old) line }
    ensures gains { Gains K.Kind.ops (map K.Kind.means adjoint.old) (map K.Kind.means adjoint.new) (λ m. K.Kind.ops.times (K.Kind.means q) (line_derivative K.Kind.ops (map K.Kind.means values.now) line m)) }
    ensures cost { result ≡ backward_cost line }
{
    match line {
        Line::Constant(_) => 0,
        Line::Add(a, b) => {
            give(adjoint, a, q);
            give(adjoint, b, q);
            2
        }
        Line::Subtract(a, b) => {
            give(adjoint, a, q);
            give(adjoint, b, q.opposite());
            3
        }
        Line::Multiply(a, b) => {
            give(adjoint, a, q.product(entry(values, b as usize)));
            give(adjoint, b, q.product(entry(values, a as usize)));
            4
        }
        Line::Opposite(a) => {
            give(adjoint, a, q.opposite());
            2
        }
    }
}

// Zero in every entry.
fn clear<K: Kind>(row: &mut [K])
    ensures { map K.Kind.means row.new ≡ replicate (length row.old) K.Kind.ops.zero }
{
    // Not `fill`: that asks for a clone that cannot fail, which a kind does not promise.
    for x in row.iter_mut() {
        *x = K::zero();
    }
}

// From r down to the first line each line's entry is given to the registers that it reads. Answers how many operations that took.
pub(crate) fn walk<K: Kind, S: Sheet>(sheet: &S, values: &[K], r: usize, adjoint: &mut [K]) -> usize
    requires known { r < registers (S.Sheet.tape sheet.now) }
    requires valued { r < length values.now }
    requires full { length adjoint.old ≡ registers (S.Sheet.tape sheet.now) }
    ensures transposes { Transposes K.Kind.ops (map K.Kind.means values.now) (S.Sheet.tape sheet.now) (unit K.Kind.ops (registers (S.Sheet.tape sheet.now)) r) (map K.Kind.means adjoint.new) }
    ensures count { result ≡ backward_count (S.Sheet.tape sheet.now) r }
{
    clear(adjoint);
    adjoint[r] = K::one();
    let n = sheet.controls();
    let mut count: usize = 0;
    // By register, downwards: a line's entry is given to entries before it in the same row.
    for i in (n..r + 1).rev() {
        let line = line_of(sheet, i - n);
        let q = adjoint[i];
        count += give_back(line, q, values, adjoint);
    }
    count
}

// The adjoint row of register r over the values as they stand, right or wrong. Answers how many operations it took.
pub fn backward<K: Kind, S: Sheet>(
    sheet: &S,
    values: &[K],
    r: usize,
    adjoint: &mut [K],
) -> Result<usize, Refusal>
    ensures { Answered (refuse_backward (S.Sheet.tape sheet.now) (length values.now) (length adjoint.old) r) result
        (adjoint.new ≡ adjoint.old)
        (Walked K.Kind.ops K.Kind.means (S.Sheet.tape sheet.now) (map K.Kind.means values.now) r adjoint.old adjoint.new) }
{
    let registers = sheet.registers();
    sheet.check_query(r, (values.len() < registers) | (adjoint.len() < registers))?;
    Ok(walk(sheet, values, r, &mut adjoint[..registers]))
}
