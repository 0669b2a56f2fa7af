// What the packed file is for, on the contracts of calls.
ghost use Rattle.packed.specs.Theorems.{ReadsBack, OnlyFiles, OneFile, OneTape, OneFault, Copied};
ghost use Rattle.packed.specs.Vectors.{TwoProductsPacked};

use crate::copying::CopyFault;
use crate::reading::open;
use crate::saving::save;

// The accepted byte rows are exactly the files of tapes, one for each tape, and a fault is fixed by what is told of it.
pub fn format_stands()
    ensures back { ReadsBack }
    ensures only { OnlyFiles }
    ensures file { OneFile }
    ensures tape { OneTape }
    ensures fault { OneFault }
{}

// Three controls, `multiply 0 1`, `multiply 3 2`: its packed file, by computation.
pub fn vector_stands()
    ensures { TwoProductsPacked }
{}

// Reads a file and saves the tape: the same bytes.
pub fn copy_file(file: &[u8], buf: &mut [u8]) -> Result<usize, CopyFault>
    ensures { Copied file.now buf.old buf.new result }
{
    let view = open(file)?;
    Ok(save(&view, buf)?)
}
