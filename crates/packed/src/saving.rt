// The writer.
ghost use Rattle.std.specs.Prelude.{◌≡◌, length};
ghost use Rattle.tape.specs.Refusals.{Answered};
ghost use Rattle.packed.specs.Writing.{refuse_save, Saved};

use crate::cursors::Cursor;
use tape::{Refusal, Sheet};

// Writes the packed file of the sheet's tape to the front of `buf`, and answers its length.
// A buffer that is too short is left as it is.
pub fn save<S: Sheet>(sheet: &S, buf: &mut [u8]) -> Result<usize, Refusal>
    ensures { Answered (refuse_save (S.Sheet.tape sheet.now) (length buf.old)) result (buf.new ≡ buf.old) (Saved (S.Sheet.tape sheet.now) buf.old buf.new) }
{
    let controls = sheet.controls();
    let count = sheet.count();
    if buf.len() < (19 + 35 * count + 7) / 8 {
        return Err(Refusal::Short);
    }
    let mut cursor = Cursor {
        at: 0,
        held: 0,
        word: 0,
    };
    cursor.put_bits(buf, 8, controls as u64);
    cursor.put_bits(buf, 11, count as u64);
    // (a sheet gives its lines by number)
    for j in 0..count {
        cursor.put_line(buf, sheet.line(j).unwrap());
    }
    cursor.fill_byte(buf);
    Ok(cursor.at)
}
