// The sweep up the lines, and what stands in a row before it.
ghost use Rattle.std.specs.Prelude.{◌≡◌, ◌<◌, ◌≤◌, map, length, take, drop};
ghost use Rattle.kind.specs.Dual.{dual};
ghost use Rattle.tape.specs.Rows.{at};
ghost use Rattle.tape.specs.Tapes.{line, registers};
ghost use Rattle.tape.specs.Values.{applied};
ghost use Rattle.sweep.specs.Forward.{Swept, paired};

use kind::{Kind, Pair};
use tape::{Line, Sheet};

// Line j, which there is.
#[inline(always)]
pub(crate) fn line_of<S: Sheet>(sheet: &S, j: usize) -> Line
    requires { j < length (S.Sheet.tape sheet.now).lines }
    ensures { result ≡ line (S.Sheet.tape sheet.now) j }
{
    sheet.line(j).unwrap()
}

// What line j, which there is, comes to over a row.
#[inline(always)]
fn line_value<K: Kind, S: Sheet>(sheet: &S, j: usize, row: &[K]) -> K
    requires { j < length (S.Sheet.tape sheet.now).lines }
    ensures { K.Kind.means result ≡ applied K.Kind.ops (at K.Kind.ops (map K.Kind.means row.now)) (line (S.Sheet.tape sheet.now) j) }
{
    line_of(sheet, j).apply(row)
}

// Works out each line whose register is in the row, going up; the controls stand in the row already.
pub(crate) fn sweep_lines<K: Kind, S: Sheet>(sheet: &S, row: &mut [K])
    requires { length row.old ≤ registers (S.Sheet.tape sheet.now) }
    ensures { Swept K.Kind.ops (S.Sheet.tape sheet.now) (map K.Kind.means row.old) (map K.Kind.means row.new) }
{
    let n = sheet.controls();
    // By register: an entry is worked out from those before it in the same row.
    for i in n..row.len() {
        row[i] = line_value(sheet, i - n, &row[..i]);
    }
}

// Works out each line whose register is in the row, as far as the row goes; the controls stand in the row already. Every later
// entry is kept.
pub fn evaluate<K: Kind, S: Sheet>(sheet: &S, row: &mut [K])
    ensures swept { Swept K.Kind.ops (S.Sheet.tape sheet.now) (take (registers (S.Sheet.tape sheet.now)) (map K.Kind.means row.old)) (take (registers (S.Sheet.tape sheet.now)) (map K.Kind.means row.new)) }
    ensures later { drop (registers (S.Sheet.tape sheet.now)) row.new ≡ drop (registers (S.Sheet.tape sheet.now)) row.old }
{
    let end = row.len().min(sheet.registers());
    sweep_lines(sheet, &mut row[..end]);
}

// The controls stand first in the row, as far as it goes.
pub(crate) fn load<K: Kind>(controls: &[K], row: &mut [K])
    ensures { take (length controls.now) (map K.Kind.means row.new) ≡ take (length row.old) (map K.Kind.means controls.now) }
{
    let both = controls.len().min(row.len());
    row[..both].copy_from_slice(&controls[..both]);
}

// The same in pairs: control by control, its number and its entry in the direction. (One function for both would have to be told
// how a number is written, which is all that each does.)
pub(crate) fn load_pairs<K: Kind>(controls: &[K], direction: &[K], row: &mut [Pair<K>])
    requires { length direction.now ≡ length controls.now }
    ensures { take (length controls.now) (map (dual K.Kind.means) row.new) ≡ take (length row.old) (paired (map K.Kind.means controls.now) (map K.Kind.means direction.now)) }
{
    let both = controls.len().min(row.len());
    // By the index: after a zip over `iter_mut` a proof knows no entry.
    for (i, pair) in row[..both].iter_mut().enumerate() {
        *pair = Pair {
            value: controls[i],
            tangent: direction[i],
        };
    }
}
