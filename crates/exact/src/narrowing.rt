// How one test narrows a range of steps.
ghost use Rattle.std.specs.Prelude.{◌≡◌, pos, ◌≢◌};
ghost use Rattle.exact.specs.Narrowing.{Narrowed, Reaches};
ghost use Rattle.exact.specs.Ranges.{Between, Span};

use crate::answers::{StepRange, Whole};

// The last step of the span.
pub(crate) const SPAN: i64 = 1_000_000;

// How many steps move the value by its slack at most, the span's end at the latest.
fn reach(whole: Whole) -> u64
    requires { whole.slope ≢ pos 0 }
    ensures { Reaches whole.value whole.slope result }
{
    let slack = if whole.value > 0 {
        whole.value.unsigned_abs() - 1
    } else {
        whole.value.unsigned_abs()
    };
    (slack / whole.slope.unsigned_abs()).min(SPAN as u64)
}

// The steps of a range that keep one more test.
pub(crate) fn narrow(range: StepRange, whole: Whole) -> StepRange
    requires from { Span range.low }
    requires to { Span range.high }
    requires stay { Between range.low range.high (pos 0) }
    ensures { Narrowed range.low range.high whole.value whole.slope result.low result.high }
{
    if whole.slope == 0 {
        return range;
    }
    let far = reach(whole) as i64;
    if (whole.value > 0) == (whole.slope > 0) {
        StepRange {
            low: range.low.max(-far),
            ..range
        }
    } else {
        StepRange {
            high: range.high.min(far),
            ..range
        }
    }
}
