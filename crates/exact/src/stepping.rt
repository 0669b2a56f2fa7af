// Step ranges.
ghost use Rattle.exact.specs.Exact.{work};
ghost use Rattle.exact.specs.Steps.{Steps};
ghost use Rattle.exact.specs.Wholes.{question};

use crate::answers::StepRange;
use crate::questions::Question;
use crate::readings::Readings;
use kind::{Pair, Size, Ticks};
use tape::{Refusal, Sheet};

// The lowest and the highest step from -1,000,000 to 1,000,000 such that every step from one to the other keeps the tests of all
// registers of the list. The working rows then hold the pairs of every register, also for an empty list, and where a size is too
// large.
pub fn steps<S: Sheet>(
    sheet: &S,
    controls: &[Ticks],
    direction: &[Ticks],
    tests: &[usize],
    pairs: &mut [Pair<Ticks>],
    sizes: &mut [Pair<Size>],
) -> Result<StepRange, Refusal>
    ensures { Steps (question (S.Sheet.tape sheet.now) controls.now direction.now) tests.now (work pairs.old sizes.old) (work pairs.new sizes.new) result }
{
    let question = Question {
        sheet,
        controls,
        direction,
    };
    question.work(tests, pairs, sizes)?;
    Readings { pairs, sizes }.range_of(tests)
}
