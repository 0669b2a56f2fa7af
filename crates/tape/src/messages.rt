// Refusals in words.
use crate::refusals::Refusal;
use std::fmt;

impl fmt::Display for Refusal {
    fn fmt<W: fmt::Write>(&self, f: &mut fmt::Formatter<W>) -> fmt::Result {
        match self {
            Refusal::Controls => write!(f, "a tape has 1 to 128 controls"),
            Refusal::Short => write!(f, "a row or a buffer is too short"),
            Refusal::Full => write!(f, "there is no room for another line"),
            Refusal::Unknown(k) => {
                write!(
                    f,
                    "there is no control, register or line {k} that can be used here"
                )
            }
            Refusal::Empty => write!(f, "there is no line to drop"),
            Refusal::Unbounded(k) => {
                write!(
                    f,
                    "the whole number in register {k} may be too large for 64 bits"
                )
            }
        }
    }
}
