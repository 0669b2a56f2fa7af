// Numbers that look random, the same from the same seed.
use crate::numbers::Number;
use tape::Line;

// A shift register of 64 bits, never 0 where its seed is not.
#[derive(Clone, Copy)]
pub struct Random(pub u64);

impl Random {
    pub fn next(&mut self) -> u64 {
        let mut x = self.0;
        x ^= x << 13;
        x ^= x >> 7;
        x ^= x << 17;
        self.0 = x;
        x.wrapping_mul(2685821657736338717).rotate_left(32)
    }

    // A number below n, or 0 where n is 0.
    pub fn below(&mut self, n: usize) -> usize {
        if n == 0 {
            return 0;
        }
        self.next() as usize % n
    }

    // One of so many registers; one time in sixteen a register past them.
    pub fn register(&mut self, registers: usize) -> usize {
        if self.next() % 16 == 0 {
            return registers.wrapping_add(self.below(3));
        }
        self.below(registers)
    }

    // A number of few bits or many.
    pub fn number<K: Number>(&mut self) -> K {
        let bits = self.next() % 64;
        K::of(self.next() >> bits)
    }

    // A line that mostly reads registers below `own`. (What is drawn is a number, and stands for nothing else.)
    pub fn line(&mut self, own: usize) -> Line {
        let a = (self.register(own) % 65536) as u16;
        let b = (self.register(own) % 65536) as u16;
        match self.next() % 6 {
            0 => Line::Constant(((self.next() % 4294967296) as i64 - 2147483648) as i32),
            1 => Line::Add(a, b),
            2 => Line::Subtract(a, b),
            3 => Line::Opposite(a),
            _ => Line::Multiply(a, b),
        }
    }
}
