// An editing session over a tape: controls are set, lines are added, changed and dropped, and only the lines that an edit
// made stale are worked out again.
#![tactic(auto)]

pub mod answers;
pub mod calls;
pub mod openings;
pub mod queries;
pub mod sessions;

pub use answers::Graded;
pub use calls::Call;
pub use openings::Opening;
pub use sessions::{Answer, Session};

#[cfg(test)]
mod tests;
