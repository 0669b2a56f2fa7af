// The kinds as words of 64 bits.
use kind::{Kind, Residue, Size, Ticks};

// A kind whose numbers are made of words, and are compared by them. (From can't stand here: kinds and words are of other crates.)
pub trait Number: Kind {
    fn of(word: u64) -> Self;

    // Two numbers that mean the same have the same word.
    fn word(self) -> u64;
}

// Even words are 0, 1, 2 and so on, odd ones -1, -2, -3.
impl Number for Ticks {
    fn of(word: u64) -> Ticks {
        let half = (word / 2).cast_signed();
        if word % 2 == 0 {
            Ticks(half)
        } else {
            Ticks(-half - 1)
        }
    }

    fn word(self) -> u64 {
        self.0.cast_unsigned()
    }
}

impl Number for Residue {
    fn of(word: u64) -> Residue {
        Residue((word % 4294967296) as u32)
    }

    fn word(self) -> u64 {
        u64::from(self.0) % 2147483647
    }
}

impl Number for Size {
    fn of(word: u64) -> Size {
        Size(word)
    }

    fn word(self) -> u64 {
        self.0
    }
}
