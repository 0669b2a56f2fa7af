// The fields of a row of bytes, each a number whose bits lie anywhere in the bytes, the most significant first. (Bytes, place and
// width are handed over one by one: a struct of them would be made anew for every read.)
ghost use Rattle.std.specs.Prelude.{◌≡◌, ◌+◌, ◌*◌, ◌^◌, ◌<◌, ◌≤◌, length};
ghost use Rattle.packed.specs.Bits.{number, spread, field};

// The number that at most eight bytes write. (Where their number is constant, the loop is unrolled.)
fn big_endian(bytes: &[u8]) -> u64
    requires { length bytes.now ≤ 8 }
    ensures { result ≡ number (spread bytes.now) }
{
    let mut word: u64 = 0;
    for &byte in bytes {
        word = (word << 8) | u64::from(byte);
    }
    word
}

// The number in the `width` bits from the bit `at` on.
pub(crate) fn read_field(bytes: &[u8], at: usize, width: usize) -> u64
    requires within { at + width ≤ 8 * length bytes.now }
    requires near { at < 2 ^ 16 }
    requires narrow { width ≤ 35 }
    ensures value { result ≡ field bytes.now at width }
    ensures small { result < 2 ^ width }
{
    let end = (at + width + 7) / 8;
    let word = big_endian(&bytes[at / 8..end]);
    (word >> (8 * end - (at + width))) & ((1 << width) - 1)
}

// The 35 bits of a line, by one read of eight bytes where the file has as many.
#[inline(always)]
pub(crate) fn read_line(bytes: &[u8], at: usize) -> u64
    requires within { at + 35 ≤ 8 * length bytes.now }
    requires near { at + 35 < 2 ^ 16 }
    ensures value { result ≡ field bytes.now at 35 }
    ensures small { result < 2 ^ 35 }
{
    let from = at / 8;
    if from + 8 <= bytes.len() {
        (big_endian(&bytes[from..from + 8]) >> (29 - at % 8)) % (1 << 35)
    } else {
        read_field(bytes, at, 35)
    }
}
