// Residues: arithmetic modulo the prime 2^31 - 1.
ghost use Rattle.kind.specs.Modular.{Remainder, residue_operations, residue_laws, residue, answers_remainder};

use crate::kinds::Kind;

// The modulus.
const PRIME: u64 = 2147483647;

// A word that means its remainder of the prime. Each function answers the remainder itself.
// Several words mean one number, and `==` tells them apart: it compares the words as they are held.
#[derive(Clone, Copy, PartialEq, Eq)]
pub struct Residue(pub u32);

impl Kind for Residue {
    ghost Meaning = { Remainder };

    ghost ops = { residue_operations };

    ghost laws = { residue_laws };

    ghost means = { residue };

    fn zero() -> Residue
        ensures { answers_remainder result residue_operations.zero }
    {
        Residue(0)
    }

    fn one() -> Residue
        ensures { answers_remainder result residue_operations.one }
    {
        Residue(1)
    }

    fn sum(self, other: Residue) -> Residue
        ensures { answers_remainder result (residue_operations.plus (residue self) (residue other)) }
    {
        Residue(((self.0 as u64 + other.0 as u64) % PRIME) as u32)
    }

    fn product(self, other: Residue) -> Residue
        ensures { answers_remainder result (residue_operations.times (residue self) (residue other)) }
    {
        Residue((self.0 as u64 * other.0 as u64 % PRIME) as u32)
    }

    fn opposite(self) -> Residue
        ensures { answers_remainder result (residue_operations.opposite (residue self)) }
    {
        Residue(((PRIME - self.0 as u64 % PRIME) % PRIME) as u32)
    }

    fn image(n: i64) -> Residue
        ensures { answers_remainder result (residue_operations.image n) }
    {
        Residue(n.rem_euclid(PRIME as i64) as u32)
    }
}
