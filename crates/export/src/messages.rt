// Faults in words.
use crate::faults::ExportFault;
use std::fmt;

impl fmt::Display for ExportFault {
    fn fmt<W: fmt::Write>(&self, f: &mut fmt::Formatter<W>) -> fmt::Result {
        match self {
            ExportFault::File(fault) => write!(f, "{fault}"),
            ExportFault::Query(refusal) => write!(f, "{refusal}"),
        }
    }
}
