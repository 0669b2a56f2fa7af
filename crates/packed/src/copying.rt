// Why a file is not copied. (`export` has a type of this shape for its queries: what the refusal is of stands in the name.)
ghost use Rattle.packed.specs.declared.copying.CopyFault.TheVariants.{File, Buffer};
ghost use Rattle.std.specs.Prelude.{◌≡◌};

use crate::faults::FileFault;
use tape::Refusal;

#[derive(Clone, Copy, PartialEq, Eq)]
pub enum CopyFault {
    // what is wrong with the file
    File(FileFault),
    // why it was not saved
    Buffer(Refusal),
}

impl From<FileFault> for CopyFault {
    ghost from_gives = { λ fault why. why ≡ File fault };

    fn from(fault: FileFault) -> CopyFault {
        CopyFault::File(fault)
    }
}

impl From<Refusal> for CopyFault {
    ghost from_gives = { λ refusal why. why ≡ Buffer refusal };

    fn from(refusal: Refusal) -> CopyFault {
        CopyFault::Buffer(refusal)
    }
}
