// Faults in words.
use crate::copying::CopyFault;
use crate::faults::{FileFault, LineFault};
use std::fmt;

impl fmt::Display for LineFault {
    fn fmt<W: fmt::Write>(&self, f: &mut fmt::Formatter<W>) -> fmt::Result {
        match self {
            LineFault::Kind => write!(f, "is of no known kind"),
            LineFault::Register(k) => write!(f, "may not read register {k}"),
            LineFault::Spare => write!(f, "has something in its spare field"),
        }
    }
}

impl fmt::Display for FileFault {
    fn fmt<W: fmt::Write>(&self, f: &mut fmt::Formatter<W>) -> fmt::Result {
        match self {
            FileFault::Controls => write!(f, "the file's tape has not 1 to 128 controls"),
            FileFault::Lines => write!(f, "the file's tape has more than 1024 lines"),
            FileFault::Short(_) => write!(f, "the file ends too soon"),
            FileFault::Surplus(_) => write!(f, "the file goes on past its tape"),
            FileFault::Line(j, fault, _) => write!(f, "line {j} of the file {fault}"),
        }
    }
}

impl fmt::Display for CopyFault {
    fn fmt<W: fmt::Write>(&self, f: &mut fmt::Formatter<W>) -> fmt::Result {
        match self {
            CopyFault::File(fault) => write!(f, "{fault}"),
            CopyFault::Buffer(refusal) => write!(f, "{refusal}"),
        }
    }
}
