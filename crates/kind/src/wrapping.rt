// Ticks: arithmetic modulo 2^64.
ghost use Rattle.std.specs.Prelude.{◌≡◌, pos, ◌+ℤ◌, ◌*ℤ◌, neg_ℤ};
ghost use Rattle.std.specs.Int.{int_wrap, w64};
ghost use Rattle.kind.specs.Wrapping.{Word, tick_operations, tick_laws, tick};

use crate::kinds::Kind;

// A signed number of 64 bits whose operations wrap. It means its word of 64 bits.
#[derive(Clone, Copy, PartialEq, Eq)]
pub struct Ticks(pub i64);

impl Kind for Ticks {
    ghost Meaning = { Word };

    ghost ops = { tick_operations };

    ghost laws = { tick_laws };

    ghost means = { tick };

    fn zero() -> Ticks
        ensures meaning { tick result ≡ tick_operations.zero }
        ensures exact { result.0 ≡ pos 0 }
    {
        Ticks(0)
    }

    fn one() -> Ticks
        ensures meaning { tick result ≡ tick_operations.one }
        ensures exact { result.0 ≡ pos 1 }
    {
        Ticks(1)
    }

    fn sum(self, other: Ticks) -> Ticks
        ensures meaning { tick result ≡ tick_operations.plus (tick self) (tick other) }
        ensures exact { result.0 ≡ int_wrap w64 (self.0 +ℤ other.0) }
    {
        Ticks(self.0.wrapping_add(other.0))
    }

    fn product(self, other: Ticks) -> Ticks
        ensures meaning { tick result ≡ tick_operations.times (tick self) (tick other) }
        ensures exact { result.0 ≡ int_wrap w64 (self.0 *ℤ other.0) }
    {
        Ticks(self.0.wrapping_mul(other.0))
    }

    fn opposite(self) -> Ticks
        ensures meaning { tick result ≡ tick_operations.opposite (tick self) }
        ensures exact { result.0 ≡ int_wrap w64 (neg_ℤ self.0) }
    {
        Ticks(self.0.wrapping_neg())
    }

    fn image(n: i64) -> Ticks
        ensures meaning { tick result ≡ tick_operations.image n }
        ensures exact { result.0 ≡ n }
    {
        Ticks(n)
    }
}
