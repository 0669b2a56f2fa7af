// The queries of a file. The file is looked at first, and its fault comes before a query's refusal.
// (Each query has rows and a contract of its own, so they are four functions.)
ghost use Rattle.std.specs.Prelude.{◌≡◌, length};
ghost use Rattle.packed.specs.Formats.{tape_of};
ghost use Rattle.packed.specs.Looks.{fault_of};
ghost use Rattle.sweep.specs.Forward.{Valued, Sloped};
ghost use Rattle.sweep.specs.Queries.{Graded, Bent};
ghost use Rattle.sweep.specs.Refusals.{refuse_value, refuse_slope, refuse_gradient, refuse_bend};
ghost use Rattle.export.specs.Exports.{Exported};

use crate::faults::ExportFault;
use kind::{Kind, Pair};
use packed::open;
use sweep::Gradient;

// The value of register r.
pub fn value<K: Kind>(
    file: &[u8],
    controls: &[K],
    r: usize,
    row: &mut [K],
) -> Result<K, ExportFault>
    ensures { Exported (fault_of file.now) (refuse_value (tape_of file.now) (length controls.now) (length row.old) r) result
        (row.new ≡ row.old)
        (Valued K.Kind.ops K.Kind.means (tape_of file.now) controls.now r row.old row.new) }
{
    let view = open(file)?;
    Ok(sweep::value(&view, controls, r, row)?)
}

// The slope of register r along a direction.
pub fn slope<K: Kind>(
    file: &[u8],
    controls: &[K],
    direction: &[K],
    r: usize,
    row: &mut [Pair<K>],
) -> Result<K, ExportFault>
    ensures { Exported (fault_of file.now) (refuse_slope (tape_of file.now) (length controls.now) (length direction.now) (length row.old) r) result
        (row.new ≡ row.old)
        (Sloped K.Kind.ops K.Kind.means (tape_of file.now) controls.now direction.now r row.old row.new) }
{
    let view = open(file)?;
    Ok(sweep::slope(&view, controls, direction, r, row)?)
}

// The gradient of register r, in the first entries of the adjoint row.
pub fn gradient<K: Kind>(
    file: &[u8],
    controls: &[K],
    r: usize,
    row: &mut [K],
    adjoint: &mut [K],
) -> Result<Gradient<K>, ExportFault>
    ensures { Exported (fault_of file.now) (refuse_gradient (tape_of file.now) (length controls.now) (length row.old) (length adjoint.old) r) result
        ((row.new ≡ row.old) × (adjoint.new ≡ adjoint.old))
        (Graded K.Kind.ops K.Kind.means (tape_of file.now) controls.now r row.old row.new adjoint.old adjoint.new) }
{
    let view = open(file)?;
    Ok(sweep::gradient(&view, controls, r, row, adjoint)?)
}

// The bend of register r along a direction, in the first entries of `out`.
pub fn bend<K: Kind>(
    file: &[u8],
    controls: &[K],
    direction: &[K],
    r: usize,
    row: &mut [Pair<K>],
    adjoint: &mut [Pair<K>],
    out: &mut [K],
) -> Result<(), ExportFault>
    ensures { Exported (fault_of file.now) (refuse_bend (tape_of file.now) (length controls.now) (length direction.now) (length row.old) (length adjoint.old) (length out.old) r) result
        ((row.new ≡ row.old) × (adjoint.new ≡ adjoint.old) × (out.new ≡ out.old))
        (λ _. Bent K.Kind.ops K.Kind.means (tape_of file.now) controls.now direction.now r row.old row.new adjoint.old adjoint.new out.old out.new) }
{
    let view = open(file)?;
    Ok(sweep::bend(&view, controls, direction, r, row, adjoint, out)?)
}
