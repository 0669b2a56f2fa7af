// Bits into a buffer, the most significant first.
ghost use Rattle.std.specs.Prelude.{◌≡◌, ◌+◌, ◌-◌, ◌*◌, ◌/◌, ◌%◌, ◌^◌, ◌<◌, ◌≤◌, ◌++◌, length};
ghost use Rattle.packed.specs.Bits.{bits, spread};
ghost use Rattle.packed.specs.Formats.{line_bits};
ghost use Rattle.packed.specs.Kinds.{code_of};
ghost use Rattle.packed.specs.Writing.{Puts};

use crate::cursors::Cursor;
use crate::kinds::LineKind;
use tape::Line;

// Fills bytes with the bits above the word's `rest` low ones.
fn put_bytes(bytes: &mut [u8], word: u64, rest: usize)
    requires { rest + 8 * length bytes.old ≤ 64 }
    ensures { spread bytes.new ≡ bits (8 * length bytes.old) (word / 2 ^ rest) }
{
    let mut above = rest + 8 * bytes.len();
    for byte in bytes.iter_mut() {
        above -= 8;
        *byte = (word >> above & 0xFF) as u8;
    }
}

// Two registers in 16 bits each.
fn two_registers(a: u16, b: u16) -> u64
    ensures bits { bits 32 result ≡ bits 16 a ++ bits 16 b }
    ensures small { result < 2 ^ 32 }
{
    (u64::from(a) << 16) | u64::from(b)
}

// A line's kind, and the 32 bits that follow it.
fn line_parts(line: Line) -> (LineKind, u64)
    ensures bits { bits 3 (code_of result.0) ++ bits 32 result.1 ≡ line_bits line }
    ensures small { result.1 < 2 ^ 32 }
{
    match line {
        Line::Constant(c) => (LineKind::Constant, u64::from(c.cast_unsigned())),
        Line::Add(a, b) => (LineKind::Add, two_registers(a, b)),
        Line::Subtract(a, b) => (LineKind::Subtract, two_registers(a, b)),
        Line::Multiply(a, b) => (LineKind::Multiply, two_registers(a, b)),
        Line::Opposite(a) => (LineKind::Opposite, two_registers(a, 0)),
    }
}

// (The buffer is passed: a cursor that held it would owe in each method a clause that it is the same buffer after.)
impl Cursor {
    // Writes the `width` low bits of `value`.
    pub(crate) fn put_bits(&mut self, buf: &mut [u8], width: usize, value: u64)
        requires narrow { width ≤ 35 }
        requires small { value < 2 ^ width }
        requires room { 8 * self.old.at + self.old.held + width ≤ 8 * length buf.old }
        ensures { Puts buf.old self.old buf.new self.new (bits width value) }
    {
        let word = (self.word << width) | value;
        let size = self.held + width;
        let end = self.at + size / 8;
        let held = size % 8;
        put_bytes(&mut buf[self.at..end], word, held);
        *self = Cursor {
            at: end,
            held,
            word: word & ((1 << held) - 1),
        };
    }

    // Writes a line.
    pub(crate) fn put_line(&mut self, buf: &mut [u8], line: Line)
        requires room { 8 * self.old.at + self.old.held + 35 ≤ 8 * length buf.old }
        ensures { Puts buf.old self.old buf.new self.new (line_bits line) }
    {
        let (kind, word) = line_parts(line);
        self.put_bits(buf, 3, u64::from(kind));
        self.put_bits(buf, 32, word);
    }

    // Writes zeros to the end of the byte.
    pub(crate) fn fill_byte(&mut self, buf: &mut [u8])
        requires room { 8 * self.old.at + self.old.held ≤ 8 * length buf.old }
        ensures zeros { Puts buf.old self.old buf.new self.new (bits ((8 - self.old.held) % 8) 0) }
        ensures whole { self.new.held ≡ 0 }
    {
        self.put_bits(buf, (8 - self.held) % 8, 0);
    }
}
