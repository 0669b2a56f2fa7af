// The lines of a tape: what each reads, and what it comes to.
ghost use Rattle.std.specs.Prelude.{◌≡◌, ℕ, Bool, false, ◌||◌, map, None, MatchOption};
ghost use Rattle.tape.specs.Lines.{reads, Below};
ghost use Rattle.tape.specs.Refusals.{Answered, refuse_read, refuse_reads};
ghost use Rattle.tape.specs.Rows.{at};
ghost use Rattle.tape.specs.Tapes.{ConstantFits};
ghost use Rattle.tape.specs.Values.{applied};

use crate::refusals::Refusal;
use kind::Kind;

// A line of a tape: a constant, or an operation on registers below the line's own.
#[derive(Clone, Copy, Debug, PartialEq, Eq)]
pub enum Line {
    Constant(i32),
    Add(u16, u16),
    Subtract(u16, u16),
    Multiply(u16, u16),
    Opposite(u16),
}

// The number of a register, zero past the row's end.
fn entry<K: Kind>(row: &[K], register: u16) -> K
    ensures { K.Kind.means result ≡ at K.Kind.ops (map K.Kind.means row.now) register }
{
    row.get(register as usize).copied().unwrap_or(K::zero())
}

impl Line {
    // The two registers that the line reads; the same one twice where it reads one.
    pub(crate) fn operands(self) -> Option<(usize, usize)>
        ensures reads { MatchOption result ((test : ℕ → Bool) → reads self test ≡ false) (λ p. (test : ℕ → Bool) → reads self test ≡ (test p.0 || test p.1)) }
        ensures refused { MatchOption result ((own : ℕ) → refuse_reads own self ≡ None) (λ p. (own : ℕ) → refuse_reads own self ≡ refuse_read own p.0 (refuse_read own p.1 None)) }
    {
        match self {
            Line::Constant(_) => None,
            Line::Add(a, b) | Line::Subtract(a, b) | Line::Multiply(a, b) => {
                Some((a as usize, b as usize))
            },
            Line::Opposite(a) => Some((a as usize, a as usize)),
        }
    }

    // Declines a line that cannot stand at the register `own`. (Its constant is a number of 32 bits by its type.)
    pub(crate) fn admit_at(self, own: usize) -> Result<(), Refusal>
        ensures why { Answered (refuse_reads own self) result (Unit {0}) (λ _. Below own self) }
        ensures fits { ConstantFits self }
    {
        match self.operands() {
            Some((first, _)) if first >= own => Err(Refusal::Unknown(first)),
            Some((_, second)) if second >= own => Err(Refusal::Unknown(second)),
            _ => Ok(()),
        }
    }

    // What the line comes to over a row, zero for a register past its end.
    pub fn apply<K: Kind>(self, row: &[K]) -> K
        ensures { K.Kind.means result ≡ applied K.Kind.ops (at K.Kind.ops (map K.Kind.means row.now)) self }
    {
        match self {
            Line::Constant(c) => K::image(c as i64),
            Line::Add(a, b) => entry(row, a).sum(entry(row, b)),
            Line::Subtract(a, b) => entry(row, a).sum(entry(row, b).opposite()),
            Line::Multiply(a, b) => entry(row, a).product(entry(row, b)),
            Line::Opposite(a) => entry(row, a).opposite(),
        }
    }
}
