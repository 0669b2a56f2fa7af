// Why a call is declined, in words.
ghost use Rattle.std.specs.Prelude.{◌≡◌};
ghost use Rattle.pose.specs.Declines.{bit_of, notice_of};

use export::ExportFault;
use packed::{FileFault, LineFault};
use std::alloc::{AllocError, AllocFailed};
use std::fmt;
use tape::Refusal;

// Why a call is declined, by what the call was about: the same refusal of a name that is not there reads differently.
#[derive(Clone, Copy, PartialEq, Eq)]
pub enum Decline {
    Control(Refusal),
    Query(Refusal),
    // a line that is added or changed
    Line(Refusal),
    File(FileFault),
}

// Why a call has no answer.
#[derive(Clone, Copy, PartialEq, Eq)]
pub enum Fault {
    Declined(Decline),
    Memory,
}

impl Decline {
    // The number that a host is told.
    pub(crate) fn number(self) -> u8
        ensures { result ≡ (notice_of self).number }
    {
        match self {
            Decline::Control(refusal) | Decline::Query(refusal) | Decline::Line(refusal) => {
                refusal.number()
            }
            Decline::File(fault) => fault.number(),
        }
    }

    // The register, control or line that is named.
    pub(crate) fn named(self) -> Option<usize>
        ensures { result ≡ (notice_of self).named }
    {
        match self {
            Decline::Control(refusal) | Decline::Query(refusal) | Decline::Line(refusal) => {
                refusal.named()
            }
            Decline::File(fault) => fault.named(),
        }
    }

    // The bit of a file's fault.
    pub(crate) fn bit(self) -> Option<usize>
        ensures { result ≡ bit_of self }
    {
        match self {
            Decline::File(fault) => Some(fault.bit()),
            _ => None,
        }
    }

    fn reason(self) -> &'static str {
        match self {
            Decline::Control(refusal) => refusal_reason(refusal, "no such control"),
            Decline::Query(refusal) => refusal_reason(refusal, "no such register"),
            Decline::Line(refusal) => {
                refusal_reason(refusal, "no such register, or not below the line")
            }
            Decline::File(fault) => file_reason(fault),
        }
    }
}

// A refusal's reason, of which the one for a name that is not there is given.
fn refusal_reason(refusal: Refusal, unknown: &'static str) -> &'static str {
    match refusal {
        Refusal::Controls => "the number of controls is not 1 to 128",
        Refusal::Short => "a row is too short",
        Refusal::Full => "no room for another line",
        Refusal::Unknown(_) => unknown,
        Refusal::Empty => "no line to drop",
        Refusal::Unbounded(_) => "the size bound is too large",
    }
}

fn file_reason(fault: FileFault) -> &'static str {
    match fault {
        FileFault::Controls => "the number of controls is not 1 to 128",
        FileFault::Lines => "more than 1024 lines",
        FileFault::Short(_) => "the file is too short",
        FileFault::Surplus(_) => "the file goes on past its tape",
        FileFault::Line(_, LineFault::Kind, _) => "no such kind of line",
        FileFault::Line(_, LineFault::Register(_), _) => "the line may not read that register",
        FileFault::Line(_, LineFault::Spare, _) => "the spare field is not zero",
    }
}

impl fmt::Display for Decline {
    fn fmt<W: fmt::Write>(&self, f: &mut fmt::Formatter<W>) -> fmt::Result {
        let number = self.number();
        write!(f, "refused {number}")?;
        if let Some(named) = self.named() {
            write!(f, " {named}")?;
        }
        if let Some(bit) = self.bit() {
            write!(f, " at bit {bit}")?;
        }
        let reason = self.reason();
        write!(f, ": {reason}")
    }
}

impl From<Decline> for Fault {
    fn from(decline: Decline) -> Fault {
        Fault::Declined(decline)
    }
}

// A refusal is a query's where nothing else is said.
impl From<Refusal> for Fault {
    fn from(refusal: Refusal) -> Fault {
        Fault::Declined(Decline::Query(refusal))
    }
}

impl From<FileFault> for Fault {
    fn from(fault: FileFault) -> Fault {
        Fault::Declined(Decline::File(fault))
    }
}

impl From<ExportFault> for Fault {
    fn from(fault: ExportFault) -> Fault {
        match fault {
            ExportFault::File(fault) => Fault::from(fault),
            ExportFault::Query(refusal) => Fault::from(refusal),
        }
    }
}

impl From<AllocError> for Fault {
    fn from(_error: AllocError) -> Fault {
        Fault::Memory
    }
}

impl<T: Drop> From<AllocFailed<T>> for Fault {
    fn from(_refused: AllocFailed<T>) -> Fault {
        Fault::Memory
    }
}
