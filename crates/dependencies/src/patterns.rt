// Dependence: a number kind that the kinds' crate does not know.
ghost use Rattle.std.specs.Prelude.{◌≡◌, Bool, true, false, ◌&&◌, ◌||◌};
ghost use Rattle.dependencies.specs.Patterns.{depends, nonzero, pattern_laws, pattern_operations};

use kind::Kind;

// Zero, or something else: the sum is "or", the product is "and", and each is its own opposite. At controls that are all one, a
// gradient over this kind says of each control whether the register depends on it.
#[derive(Clone, Copy, PartialEq, Eq)]
pub struct Dependence(pub bool);

impl Kind for Dependence {
    ghost Meaning = { Bool };

    ghost ops = { pattern_operations };

    ghost laws = { pattern_laws };

    ghost means = { depends };

    fn zero() -> Dependence
        ensures { result.0 ≡ false }
    {
        Dependence(false)
    }

    fn one() -> Dependence
        ensures { result.0 ≡ true }
    {
        Dependence(true)
    }

    fn sum(self, other: Dependence) -> Dependence
        ensures { result.0 ≡ (self.0 || other.0) }
    {
        Dependence(self.0 || other.0)
    }

    fn product(self, other: Dependence) -> Dependence
        ensures { result.0 ≡ (self.0 && other.0) }
    {
        Dependence(self.0 && other.0)
    }

    fn opposite(self) -> Dependence
        ensures { result.0 ≡ self.0 }
    {
        Dependence(self.0)
    }

    fn image(n: i64) -> Dependence
        ensures { result.0 ≡ nonzero n }
    {
        Dependence(n != 0)
    }
}
