// Why a line of a script is not carried out.
use std::alloc::{AllocError, AllocFailed};
use std::fmt;

#[derive(Clone, Copy)]
pub enum Mistake<'a> {
    // no command begins with this word
    Unknown(&'a str),
    // the command is written another way
    Form(&'static str),
    // the word is no number, or none that fits
    Number(&'a str),
    // the word is not made of pairs of hexadecimal digits
    Hex(&'a str),
    // a register row is longer than a session can use
    Room(usize),
    // the command is for an open session
    NoSession,
    // the command is for a session in ticks
    TicksOnly,
    Memory,
}

impl fmt::Display for Mistake<'_> {
    fn fmt<W: fmt::Write>(&self, f: &mut fmt::Formatter<W>) -> fmt::Result {
        match self {
            Mistake::Unknown(word) => write!(f, "{word:?} is no command"),
            Mistake::Form(form) => write!(f, "write it as: {form}"),
            Mistake::Number(word) => write!(f, "{word:?} is no number, or out of range"),
            Mistake::Hex(word) => write!(f, "{word:?} is no file in hexadecimal"),
            Mistake::Room(length) => write!(f, "a row of {length} is longer than 1152"),
            Mistake::NoSession => write!(f, "no session is open"),
            Mistake::TicksOnly => write!(f, "exact answers are for ticks only"),
            Mistake::Memory => write!(f, "out of memory"),
        }
    }
}

impl<'a> From<AllocError> for Mistake<'a> {
    fn from(_error: AllocError) -> Mistake<'a> {
        Mistake::Memory
    }
}

impl<'a, T: Drop> From<AllocFailed<T>> for Mistake<'a> {
    fn from(_refused: AllocFailed<T>) -> Mistake<'a> {
        Mistake::Memory
    }
}
