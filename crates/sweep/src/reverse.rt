// Gradients and bends: a sweep up the lines, then one walk down.
ghost use Rattle.std.specs.Prelude.{◌≡◌, ◌≤◌, map, length, take};
ghost use Rattle.tape.specs.Refusals.{Answered};
ghost use Rattle.sweep.specs.Refusals.{refuse_gradient, refuse_bend};
ghost use Rattle.sweep.specs.Queries.{Graded, Bent};

use crate::answers::Gradient;
use crate::filling::{load, load_pairs, sweep_lines};
use crate::rows::entry;
use crate::walking::walk;
use kind::{Kind, Pair};
use tape::{Refusal, Sheet};

// The gradient of register r: the first n entries of the adjoint row, of which every register has one. The row then holds the
// values of registers 0 to r.
pub fn gradient<K: Kind, S: Sheet>(
    sheet: &S,
    controls: &[K],
    r: usize,
    row: &mut [K],
    adjoint: &mut [K],
) -> Result<Gradient<K>, Refusal>
    ensures { Answered (refuse_gradient (S.Sheet.tape sheet.now) (length controls.now) (length row.old) (length adjoint.old) r) result
        ((row.new ≡ row.old) × (adjoint.new ≡ adjoint.old))
        (Graded K.Kind.ops K.Kind.means (S.Sheet.tape sheet.now) controls.now r row.old row.new adjoint.old adjoint.new) }
{
    let n = sheet.controls();
    let registers = sheet.registers();
    // `|` has no branch, so the proof has one path.
    let short = (controls.len() < n) | (row.len() < registers) | (adjoint.len() < registers);
    sheet.check_query(r, short)?;
    let part = &mut row[..r + 1];
    load(&controls[..n], part);
    sweep_lines(sheet, part);
    let operations = walk(sheet, row, r, &mut adjoint[..registers]);
    let value = entry(row, r);
    Ok(Gradient { value, operations })
}

// The tangents of the first pairs, as many as there is room for.
fn copy_tangents<K: Kind>(pairs: &[Pair<K>], out: &mut [K])
    requires { length out.old ≤ length pairs.now }
    ensures { out.new ≡ map (λ p. p.tangent) (take (length out.old) pairs.now) }
{
    // By the index: after a zip over `iter_mut` a proof knows no entry.
    for (i, tangent) in out.iter_mut().enumerate() {
        *tangent = pairs[i].tangent;
    }
}

// Bend: the Hessian of register r times a direction, by the gradient in pairs. It is written to the first n entries of `out`.
pub fn bend<K: Kind, S: Sheet>(
    sheet: &S,
    controls: &[K],
    direction: &[K],
    r: usize,
    row: &mut [Pair<K>],
    adjoint: &mut [Pair<K>],
    out: &mut [K],
) -> Result<(), Refusal>
    ensures { Answered (refuse_bend (S.Sheet.tape sheet.now) (length controls.now) (length direction.now) (length row.old) (length adjoint.old) (length out.old) r) result
        ((row.new ≡ row.old) × (adjoint.new ≡ adjoint.old) × (out.new ≡ out.old))
        (λ _. Bent K.Kind.ops K.Kind.means (S.Sheet.tape sheet.now) controls.now direction.now r row.old row.new adjoint.old adjoint.new out.old out.new) }
{
    let n = sheet.controls();
    let registers = sheet.registers();
    let short = (controls.len() < n)
        | (direction.len() < n)
        | (out.len() < n)
        | (row.len() < registers)
        | (adjoint.len() < registers);
    sheet.check_query(r, short)?;
    let part = &mut row[..r + 1];
    load_pairs(&controls[..n], &direction[..n], part);
    sweep_lines(sheet, part);
    let _ = walk(sheet, row, r, &mut adjoint[..registers]);
    copy_tangents(adjoint, &mut out[..n]);
    Ok(())
}
