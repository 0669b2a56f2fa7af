// The kinds of lines, each by its number in a file.
ghost use Rattle.std.specs.Prelude.{◌≡◌};
ghost use Rattle.packed.specs.Kinds.{code_of, Decodes};

use crate::faults::LineFault;

#[derive(Clone, Copy, PartialEq, Eq)]
pub(crate) enum LineKind {
    Constant = 0,
    Add = 1,
    Subtract = 2,
    Multiply = 3,
    Opposite = 4,
}

impl From<LineKind> for u64 {
    ghost from_gives = { λ kind code. code ≡ code_of kind };

    fn from(kind: LineKind) -> u64 {
        kind as u64
    }
}

impl TryFrom<u64> for LineKind {
    type Error = LineFault;

    ghost try_from_gives = { Decodes };

    #[inline(always)]
    fn try_from(code: u64) -> Result<LineKind, LineFault> {
        match code {
            0 => Ok(LineKind::Constant),
            1 => Ok(LineKind::Add),
            2 => Ok(LineKind::Subtract),
            3 => Ok(LineKind::Multiply),
            4 => Ok(LineKind::Opposite),
            _ => Err(LineFault::Kind),
        }
    }
}
