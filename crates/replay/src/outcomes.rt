// What a replayed run answers.
ghost use Rattle.replay.specs.declared.outcomes.ReplayFault.TheVariants.{Declined as WasDeclined, Memory as NoMemory};
ghost use Rattle.std.specs.Prelude.{◌≡◌};

use crate::replies::Reply;
use std::alloc::AllocError;
use tape::Refusal;

// The final query as both parties answer it, with what the exporter was handed.
#[derive(Clone, Copy)]
pub struct Outcome<K> {
    // the session's reply
    pub session: Reply<K>,
    // the exporter's, from the saved file and the controls
    pub from_file: Reply<K>,
    // the exporter's, over the sheet that the caller brought
    pub on_sheet: Reply<K>,
    // the numbers of the controls, copied out, in the first entries with zeros after them
    pub controls: [K; 128],
    // the saved file, in the first bytes with zeros after them
    pub file: [u8; 4483],
    pub length: usize,
}

// Why there is no outcome.
#[derive(Clone, Copy, PartialEq, Eq)]
pub enum ReplayFault {
    // the session was not opened
    Declined(Refusal),
    // there is no memory for the rows
    Memory,
}

impl From<Refusal> for ReplayFault {
    ghost from_gives = { λ refusal fault. fault ≡ WasDeclined refusal };

    fn from(refusal: Refusal) -> ReplayFault {
        ReplayFault::Declined(refusal)
    }
}

impl From<AllocError> for ReplayFault {
    ghost from_gives = { λ _ fault. fault ≡ NoMemory };

    fn from(_error: AllocError) -> ReplayFault {
        ReplayFault::Memory
    }
}
