// The reader.
ghost use Rattle.std.specs.Prelude.{◌≡◌, ◌+◌, ◌*◌, ◌/◌, ◌%◌, ◌^◌, ◌<◌, ◌≤◌, length};
ghost use Rattle.packed.specs.Formats.{line_of, line_at};
ghost use Rattle.packed.specs.Views.{view_tape, view_valid, Opens};

use crate::faults::FileFault;
use crate::fields::read_line;
use crate::kinds::LineKind;
use crate::looks::check;
use crate::views::View;
use tape::{Line, Refusal, Sheet};

// Checks a file, and gives its view.
pub fn open(bytes: &[u8]) -> Result<View<'_>, FileFault>
    ensures { Opens bytes.now result }
{
    let (controls, count) = check(bytes)?;
    Ok(View {
        bytes,
        controls,
        count,
    })
}

// The line that 35 bits write: a checked file has no kind past the last. A constant is told by the size of the word, which leaves
// three kinds to choose among, so that this compiles to compares; with a jump through a table a sweep took up to 1.7 times as long.
// (Divisions by powers of two compile to shifts and masks. The backend passes a result through memory at a call, so what reads a
// line is inlined.)
#[inline(always)]
fn split_line(word: u64) -> Line
    requires { word < 2 ^ 35 }
    ensures { result ≡ line_of (word / 4294967296 % 8) (word % 4294967296) (word / 65536 % 65536) (word % 65536) }
{
    let first = (word / 65536 % 65536) as u16;
    let second = (word % 65536) as u16;
    if word < 4294967296 {
        return Line::Constant(((word % 4294967296) as u32).cast_signed());
    }
    match LineKind::try_from(word / 4294967296 % 8).unwrap_or(LineKind::Opposite) {
        LineKind::Add => Line::Add(first, second),
        LineKind::Subtract => Line::Subtract(first, second),
        LineKind::Multiply => Line::Multiply(first, second),
        LineKind::Constant | LineKind::Opposite => Line::Opposite(first),
    }
}

// The line in the 35 bits from the bit `at` on.
#[inline(always)]
fn line_in(bytes: &[u8], at: usize) -> Line
    requires within { at + 35 ≤ 8 * length bytes.now }
    requires near { at + 35 < 2 ^ 16 }
    ensures { result ≡ line_at bytes.now at }
{
    split_line(read_line(bytes, at))
}

impl<'a> Sheet for View<'a> {
    ghost tape = { view_tape };

    ghost keeps = { view_valid };

    fn controls(&self) -> usize {
        self.controls
    }

    fn count(&self) -> usize {
        self.count
    }

    #[inline(always)]
    fn line(&self, j: usize) -> Result<Line, Refusal> {
        if j >= self.count {
            return Err(Refusal::Unknown(j));
        }
        Ok(line_in(self.bytes, 19 + 35 * j))
    }
}
