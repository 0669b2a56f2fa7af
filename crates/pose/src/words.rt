// Words that write numbers, lines and files.
ghost use Rattle.std.specs.Prelude.{◌≡◌, ◌+◌, ◌*◌, ◌<◌, ◌≤◌, length, IfSome, IfOk, vec_len};

use crate::mistakes::Mistake;
use crate::numbers::Number;
use crate::rows::LONGEST;
use std::alloc::Global;
use std::str::FromStr;
use tape::Line;

// The number that a word writes.
pub(crate) fn parsed<T: FromStr>(word: &str) -> Result<T, Mistake<'_>>
where
    T::Err: Drop,
{
    word.parse().map_err(|_| Mistake::Number(word))
}

// The length of a register row.
pub fn room(word: &str) -> Result<usize, Mistake<'_>>
    ensures { IfOk result (λ l. l ≤ 1152) }
{
    let length = parsed(word)?;
    if length > LONGEST {
        return Err(Mistake::Room(length));
    }
    Ok(length)
}

pub fn number<K: Number>(word: &str) -> Result<K, Mistake<'_>> {
    K::read(word).ok_or(Mistake::Number(word))
}

// What each of the words writes, in their order.
fn each<'a, T: Drop, F: Fn(&str) -> Option<T>>(
    heap: Global,
    words: &[&'a str],
    read: F,
) -> Result<Vec<T>, Mistake<'a>>
    requires { F.IsAlwaysCallable read }
    ensures { IfOk result (λ list. vec_len list ≡ length words.now) }
{
    let mut list = Vec::new(heap);
    for word in words {
        list.push(read(word).ok_or(Mistake::Number(word))?)?;
    }
    Ok(list)
}

pub fn row<'a, K: Number>(heap: Global, words: &[&'a str]) -> Result<Vec<K>, Mistake<'a>>
    ensures { IfOk result (λ row. vec_len row ≡ length words.now) }
{
    each(heap, words, |word| K::read(word))
}

// A list of registers.
pub fn registers<'a>(heap: Global, words: &[&'a str]) -> Result<Vec<usize>, Mistake<'a>>
    ensures { IfOk result (λ list. vec_len list ≡ length words.now) }
{
    each(heap, words, |word| word.parse().ok())
}

// A line of a tape.
pub fn line<'a>(words: &[&'a str]) -> Result<Line, Mistake<'a>> {
    match words {
        ["constant", x] => Ok(Line::Constant(parsed(x)?)),
        ["add", a, b] => Ok(Line::Add(parsed(a)?, parsed(b)?)),
        ["subtract", a, b] => Ok(Line::Subtract(parsed(a)?, parsed(b)?)),
        ["multiply", a, b] => Ok(Line::Multiply(parsed(a)?, parsed(b)?)),
        ["opposite", a] => Ok(Line::Opposite(parsed(a)?)),
        _ => Err(Mistake::Form("constant X, add A B, subtract A B, multiply A B or opposite A")),
    }
}

// The number of a hexadecimal digit.
fn digit(b: u8) -> Option<u8>
    ensures { IfSome result (λ d. d < 16) }
{
    match b {
        b'0'..=b'9' => Some(b - b'0'),
        b'a'..=b'f' => Some(b - b'a' + 10),
        b'A'..=b'F' => Some(b - b'A' + 10),
        _ => None,
    }
}

fn byte(high: u8, low: u8) -> Option<u8> {
    Some(digit(high)? * 16 + digit(low)?)
}

// The bytes that pairs of hexadecimal digits write.
pub fn file<'a>(heap: Global, word: &'a str) -> Result<Vec<u8>, Mistake<'a>> {
    let mut bytes = Vec::new(heap);
    for pair in word.as_bytes().chunks(2) {
        let [high, low] = pair else {
            return Err(Mistake::Hex(word));
        };
        bytes.push(byte(*high, *low).ok_or(Mistake::Hex(word))?)?;
    }
    Ok(bytes)
}
