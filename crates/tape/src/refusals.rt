// Why a call is declined.
ghost use Rattle.std.specs.Prelude.{◌≡◌};
ghost use Rattle.tape.specs.Refusals.{notice};

#[derive(Clone, Copy, Debug, PartialEq, Eq)]
pub enum Refusal {
    // the number of controls is not 1 to 128
    Controls,
    // a row or a buffer is too short
    Short,
    // there is no room for another line
    Full,
    // there is no such register, control or line, or a line may not read it
    Unknown(usize),
    // there is no line to take off
    Empty,
    // the size bound at the register is 2^63 or more
    Unbounded(usize),
}

impl Refusal {
    // The number that a host is told.
    pub fn number(self) -> u8
        ensures { result ≡ (notice self).number }
    {
        match self {
            Refusal::Controls => 1,
            Refusal::Short => 2,
            Refusal::Full => 3,
            Refusal::Unknown(_) => 5,
            Refusal::Empty => 6,
            Refusal::Unbounded(_) => 10,
        }
    }

    // The register, control or line that the refusal names.
    pub fn named(self) -> Option<usize>
        ensures { result ≡ (notice self).named }
    {
        match self {
            Refusal::Unknown(register) | Refusal::Unbounded(register) => Some(register),
            _ => None,
        }
    }
}
