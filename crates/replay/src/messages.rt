// Faults in words.
use crate::outcomes::ReplayFault;
use std::fmt;

impl fmt::Display for ReplayFault {
    fn fmt<W: fmt::Write>(&self, f: &mut fmt::Formatter<W>) -> fmt::Result {
        match self {
            ReplayFault::Declined(refusal) => write!(f, "{refusal}"),
            ReplayFault::Memory => write!(f, "there is not enough memory"),
        }
    }
}
