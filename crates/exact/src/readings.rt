// What the working rows show.
ghost use Rattle.std.specs.Prelude.{◌≡◌, ℕ, ◌<◌, [], ◌∷◌, length, slice_index};
ghost use Rattle.tape.specs.Refusals.{Answered};
ghost use Rattle.exact.specs.Ranges.{KeepsAll, Range};
ghost use Rattle.exact.specs.Readings.{Reads, read_slope, read_value, sizes_at, words_at};
ghost use Rattle.exact.specs.Refusals.{refuse_sizes};

use crate::answers::{StepRange, Whole};
use crate::narrowing::{SPAN, narrow};
use kind::{Pair, Size, Ticks};
use tape::Refusal;

// Sizes below this make ticks exact: 2^63.
const LIMIT: u64 = 1 << 63;

// Both working rows, the one in ticks and the one in sizes.
#[derive(Drop)]
pub(crate) struct Readings<'a> {
    pub(crate) pairs: &'a [Pair<Ticks>],
    pub(crate) sizes: &'a [Pair<Size>],
}

impl<'a> Readings<'a> {
    // What the ticks of register r read as, unless a size there is too large.
    pub(crate) fn read(&self, r: usize) -> Result<Whole, Refusal>
        requires paired { r < length self.now.pairs.now }
        requires sized { r < length self.now.sizes.now }
        ensures { Answered (refuse_sizes (sizes_at self.now.sizes.now) (r ∷ [])) result (Unit {0}) (Reads (words_at self.now.pairs.now r)) }
    {
        let size = self.sizes[r];
        if size.value.0 >= LIMIT || size.tangent.0 >= LIMIT {
            return Err(Refusal::Unbounded(r));
        }
        let pair = self.pairs[r];
        Ok(Whole {
            value: pair.value.0,
            slope: pair.tangent.0,
        })
    }

    // The steps that keep the tests of what the ticks read as, or the first register with a size that is too large.
    pub(crate) fn range_of(&self, tests: &[usize]) -> Result<StepRange, Refusal>
        requires paired { (i : ℕ) → i < length tests.now → slice_index tests.now i < length self.now.pairs.now }
        requires sized { (i : ℕ) → i < length tests.now → slice_index tests.now i < length self.now.sizes.now }
        ensures { Answered (refuse_sizes (sizes_at self.now.sizes.now) tests.now) result (Unit {0}) (λ p. Range (KeepsAll (read_value self.now.pairs.now) (read_slope self.now.pairs.now) tests.now) p.low p.high) }
    {
        let mut range = StepRange {
            low: -SPAN,
            high: SPAN,
        };
        for r in tests {
            let whole = self.read(*r)?;
            range = narrow(range, whole);
        }
        Ok(range)
    }
}
