// Sizes: arithmetic that stops at the largest number of 64 bits.
ghost use Rattle.std.specs.Prelude.{◌≡◌, ◌+◌, ◌*◌, unsigned_abs};
ghost use Rattle.kind.specs.Capped.{Capped, size_operations, size_laws, size, capped};

use crate::kinds::Kind;

// A bound on the absolute value of something. It is its own opposite.
#[derive(Clone, Copy, PartialEq, Eq)]
pub struct Size(pub u64);

impl Kind for Size {
    ghost Meaning = { Capped };

    ghost ops = { size_operations };

    ghost laws = { size_laws };

    ghost means = { size };

    fn zero() -> Size
        ensures meaning { size result ≡ size_operations.zero }
        ensures exact { result.0 ≡ 0 }
    {
        Size(0)
    }

    fn one() -> Size
        ensures meaning { size result ≡ size_operations.one }
        ensures exact { result.0 ≡ 1 }
    {
        Size(1)
    }

    fn sum(self, other: Size) -> Size
        ensures meaning { size result ≡ size_operations.plus (size self) (size other) }
        ensures exact { result.0 ≡ capped (self.0 + other.0) }
    {
        Size(self.0.saturating_add(other.0))
    }

    fn product(self, other: Size) -> Size
        ensures meaning { size result ≡ size_operations.times (size self) (size other) }
        ensures exact { result.0 ≡ capped (self.0 * other.0) }
    {
        Size(self.0.saturating_mul(other.0))
    }

    fn opposite(self) -> Size
        ensures meaning { size result ≡ size_operations.opposite (size self) }
        ensures exact { result.0 ≡ self.0 }
    {
        Size(self.0)
    }

    fn image(n: i64) -> Size
        ensures meaning { size result ≡ size_operations.image n }
        ensures exact { result.0 ≡ unsigned_abs n }
    {
        Size(n.unsigned_abs())
    }
}
