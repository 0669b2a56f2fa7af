// Numbers as a script writes them.
ghost use Rattle.std.specs.Prelude.{◌≡◌, pos, MatchOption};

use kind::{Kind, Residue, Size, Ticks};

// A kind whose numbers a script can write.
pub trait Number: Kind + PartialEq {
    // The number that a word writes, if it is one and within the range of what holds it.
    fn read(word: &str) -> Option<Self>;

    // The number as it is held.
    fn held(self) -> i128;

    // The row itself, if its numbers are ticks.
    fn ticks(_row: &[Self]) -> Option<&[Ticks]> {
        None
    }
}

impl Number for Ticks {
    fn read(word: &str) -> Option<Ticks> {
        word.parse().ok().map(Ticks)
    }

    fn held(self) -> i128
        ensures { result ≡ self.0 }
    {
        i128::from(self.0)
    }

    fn ticks(row: &[Ticks]) -> Option<&[Ticks]>
        ensures { MatchOption result ⊥ (λ s. s.now ≡ row.now) }
    {
        Some(row)
    }
}

impl Number for Residue {
    fn read(word: &str) -> Option<Residue> {
        word.parse().ok().map(Residue)
    }

    fn held(self) -> i128
        ensures { result ≡ pos self.0 }
    {
        i128::from(self.0)
    }
}

impl Number for Size {
    fn read(word: &str) -> Option<Size> {
        word.parse().ok().map(Size)
    }

    fn held(self) -> i128
        ensures { result ≡ pos self.0 }
    {
        i128::from(self.0)
    }
}
