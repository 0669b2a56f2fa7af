// What the reader looks for, in its order.
ghost use Rattle.std.specs.Prelude.{◌≡◌, ◌+◌, ◌*◌, ◌^◌, ◌<◌, ◌≤◌, length, IfOk};
ghost use Rattle.std.specs.Result.{result_err};
ghost use Rattle.packed.specs.Bits.{field};
ghost use Rattle.packed.specs.Formats.{line_start};
ghost use Rattle.packed.specs.Faults.{found};
ghost use Rattle.packed.specs.Looks.{first_found, head_looks, line_looks, closing_looks, fault_of};

use crate::faults::{FileFault, LineFault};
use crate::fields::read_field;
use crate::kinds::LineKind;

// The length of the file, its two counts, and the length again, by the counts. Answers the counts.
fn check_head(bytes: &[u8]) -> Result<(usize, usize), FileFault>
    ensures looks { found (result_err result) ≡ first_found (head_looks bytes.now) }
    ensures counts { IfOk result (λ n. (n.0 ≡ field bytes.now 0 8) × (n.1 ≡ field bytes.now 8 11)) }
{
    let size = bytes.len();
    if size < 3 {
        return Err(FileFault::Short(8 * size));
    }
    let controls = read_field(bytes, 0, 8) as usize;
    if controls < 1 || controls > 128 {
        return Err(FileFault::Controls);
    }
    let lines = read_field(bytes, 8, 11) as usize;
    if lines > 1024 {
        return Err(FileFault::Lines);
    }
    let needed = (19 + 35 * lines + 7) / 8;
    if size < needed {
        return Err(FileFault::Short(8 * size));
    }
    if needed < size {
        return Err(FileFault::Surplus(8 * needed));
    }
    Ok((controls, lines))
}

// A line's kind, then its registers, then the field that an opposite has to spare.
fn check_line(bytes: &[u8], controls: usize, j: usize) -> Result<(), FileFault>
    requires within { line_start j + 35 ≤ 8 * length bytes.now }
    requires few { (controls ≤ 128) × (j < 1024) }
    ensures { found (result_err result) ≡ first_found (line_looks bytes.now controls j) }
{
    let at = 19 + 35 * j;
    let own = controls + j;
    let code = read_field(bytes, at, 3);
    let first = read_field(bytes, at + 3, 16) as usize;
    let second = read_field(bytes, at + 19, 16) as usize;
    let kind = LineKind::try_from(code).map_err(|fault| FileFault::Line(j, fault, at))?;
    if kind == LineKind::Constant {
        return Ok(());
    }
    if first >= own {
        return Err(FileFault::Line(j, LineFault::Register(first), at + 3));
    }
    if kind != LineKind::Opposite && second >= own {
        return Err(FileFault::Line(j, LineFault::Register(second), at + 19));
    }
    if kind == LineKind::Opposite && second > 0 {
        return Err(FileFault::Line(j, LineFault::Spare, at + 19));
    }
    Ok(())
}

// The bits past the last line, fewer than eight.
fn check_closing(bytes: &[u8], end: usize) -> Result<(), FileFault>
    requires few { (end ≤ 8 * length bytes.now) × (8 * length bytes.now < end + 8) }
    requires near { end < 2 ^ 16 }
    ensures { found (result_err result) ≡ first_found (closing_looks bytes.now end) }
{
    if read_field(bytes, end, 8 * bytes.len() - end) > 0 {
        return Err(FileFault::Surplus(end));
    }
    Ok(())
}

// Looks at the whole of a file, and answers its two counts.
pub(crate) fn check(bytes: &[u8]) -> Result<(usize, usize), FileFault>
    ensures looks { found (result_err result) ≡ fault_of bytes.now }
    ensures counts { IfOk result (λ n. (n.0 ≡ field bytes.now 0 8) × (n.1 ≡ field bytes.now 8 11)) }
{
    let (controls, lines) = check_head(bytes)?;
    // (over the lines' numbers: nothing holds the lines as a list)
    for j in 0..lines {
        check_line(bytes, controls, j)?;
    }
    check_closing(bytes, 19 + 35 * lines)?;
    Ok((controls, lines))
}

// What is wrong with a file, if anything is. Here the fault is the answer, and no error.
pub fn file_fault(bytes: &[u8]) -> Option<FileFault>
    ensures { found result ≡ fault_of bytes.now }
{
    check(bytes).err()
}
