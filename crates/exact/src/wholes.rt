// Exact answers.
ghost use Rattle.exact.specs.Exact.{Exact, work};
ghost use Rattle.exact.specs.Wholes.{question};

use crate::answers::Whole;
use crate::questions::Question;
use crate::readings::Readings;
use kind::{Pair, Size, Ticks};
use tape::{Refusal, Sheet};

// The value of register r and its slope along the direction, in whole numbers that do not wrap. The working rows then hold the
// pairs of every register, in ticks and in sizes, also where a size at r is too large.
pub fn exact<S: Sheet>(
    sheet: &S,
    controls: &[Ticks],
    direction: &[Ticks],
    r: usize,
    pairs: &mut [Pair<Ticks>],
    sizes: &mut [Pair<Size>],
) -> Result<Whole, Refusal>
    ensures { Exact (question (S.Sheet.tape sheet.now) controls.now direction.now) r (work pairs.old sizes.old) (work pairs.new sizes.new) result }
{
    let question = Question {
        sheet,
        controls,
        direction,
    };
    question.work(&[r], pairs, sizes)?;
    Readings { pairs, sizes }.read(r)
}
