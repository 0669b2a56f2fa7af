// Values and slopes: one sweep up the lines. (A function for each query, since each has rows of its own; their checks and the sweep
// are shared.)
ghost use Rattle.std.specs.Prelude.{◌≡◌, length};
ghost use Rattle.tape.specs.Refusals.{Answered};
ghost use Rattle.sweep.specs.Refusals.{refuse_value, refuse_slope};
ghost use Rattle.sweep.specs.Forward.{Valued, Sloped};

use crate::filling::{load, load_pairs, sweep_lines};
use crate::rows::entry;
use kind::{Kind, Pair};
use tape::{Refusal, Sheet};

// The value of register r. The row then holds the values of registers 0 to r, and keeps every later entry.
pub fn value<K: Kind, S: Sheet>(
    sheet: &S,
    controls: &[K],
    r: usize,
    row: &mut [K],
) -> Result<K, Refusal>
    ensures { Answered (refuse_value (S.Sheet.tape sheet.now) (length controls.now) (length row.old) r) result
        (row.new ≡ row.old)
        (Valued K.Kind.ops K.Kind.means (S.Sheet.tape sheet.now) controls.now r row.old row.new) }
{
    let n = sheet.controls();
    // `|` has no branch, so the proof has one path.
    let short = (controls.len() < n) | (row.len() < sheet.registers());
    sheet.check_query(r, short)?;
    let values = &mut row[..r + 1];
    load(&controls[..n], values);
    sweep_lines(sheet, values);
    Ok(entry(row, r))
}

// Slope: the formal derivative of register r along a direction. The row then holds pairs, a value and a tangent each.
pub fn slope<K: Kind, S: Sheet>(
    sheet: &S,
    controls: &[K],
    direction: &[K],
    r: usize,
    row: &mut [Pair<K>],
) -> Result<K, Refusal>
    ensures { Answered (refuse_slope (S.Sheet.tape sheet.now) (length controls.now) (length direction.now) (length row.old) r) result
        (row.new ≡ row.old)
        (Sloped K.Kind.ops K.Kind.means (S.Sheet.tape sheet.now) controls.now direction.now r row.old row.new) }
{
    let n = sheet.controls();
    let short = (controls.len() < n) | (direction.len() < n) | (row.len() < sheet.registers());
    sheet.check_query(r, short)?;
    let part = &mut row[..r + 1];
    load_pairs(&controls[..n], &direction[..n], part);
    sweep_lines(sheet, part);
    Ok(entry(row, r).tangent)
}
