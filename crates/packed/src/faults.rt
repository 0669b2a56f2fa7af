// What is wrong with a file.
ghost use Rattle.std.specs.Prelude.{◌≡◌};
ghost use Rattle.packed.specs.Faults.{finding};

// What is wrong with one line.
#[derive(Clone, Copy, PartialEq, Eq)]
pub enum LineFault {
    // there is no such kind
    Kind,
    // the line may not read this register: its own, or one above
    Register(usize),
    // the second field of an opposite is not zero
    Spare,
}

#[derive(Clone, Copy, PartialEq, Eq)]
pub enum FileFault {
    // the number of controls is not 1 to 128
    Controls,
    // there are more than 1,024 lines
    Lines,
    // the file ends too soon, at this bit
    Short(usize),
    // from this bit on there is more than the tape: bytes, or closing bits that are not zero
    Surplus(usize),
    // what is wrong with this line, in the field at this bit
    Line(usize, LineFault, usize),
}

impl FileFault {
    // The number that a host is told.
    pub fn number(self) -> u8
        ensures { result ≡ (finding self).number }
    {
        match self {
            FileFault::Controls => 1,
            FileFault::Lines => 3,
            FileFault::Short(_) => 7,
            FileFault::Surplus(_) => 8,
            FileFault::Line(_, LineFault::Kind, _) => 4,
            FileFault::Line(_, LineFault::Register(_), _) => 5,
            FileFault::Line(_, LineFault::Spare, _) => 9,
        }
    }

    // The line that is at fault, counted from 0.
    pub fn line(self) -> Option<usize>
        ensures { result ≡ (finding self).line }
    {
        match self {
            FileFault::Line(j, _, _) => Some(j),
            _ => None,
        }
    }

    // The register that the line may not read.
    pub fn named(self) -> Option<usize>
        ensures { result ≡ (finding self).named }
    {
        match self {
            FileFault::Line(_, LineFault::Register(register), _) => Some(register),
            _ => None,
        }
    }

    // The bit of the field that is wrong, counted from 0.
    pub fn bit(self) -> usize
        ensures { result ≡ (finding self).bit }
    {
        match self {
            FileFault::Controls => 0,
            FileFault::Lines => 8,
            FileFault::Short(bit) | FileFault::Surplus(bit) | FileFault::Line(_, _, bit) => bit,
        }
    }
}
