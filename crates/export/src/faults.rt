// Why an export is declined.
ghost use Rattle.std.specs.Prelude.{◌≡◌};
ghost use Rattle.export.specs.declared.faults.ExportFault.TheVariants.{File, Query};

use packed::FileFault;
use tape::Refusal;

#[derive(Clone, Copy, PartialEq, Eq)]
pub enum ExportFault {
    // the file is no packed tape: its fault, whole
    File(FileFault),
    // the query of the tape that it holds
    Query(Refusal),
}

impl From<FileFault> for ExportFault {
    ghost from_gives = { λ fault why. why ≡ File fault };

    fn from(fault: FileFault) -> ExportFault {
        ExportFault::File(fault)
    }
}

impl From<Refusal> for ExportFault {
    ghost from_gives = { λ refusal why. why ≡ Query refusal };

    fn from(refusal: Refusal) -> ExportFault {
        ExportFault::Query(refusal)
    }
}
