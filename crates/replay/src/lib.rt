// Runs of a session replayed from their calls, and the two parties' answers beside each other.
#![tactic(auto)]

mod file_party;
pub mod findings;
pub mod messages;
pub mod outcomes;
mod parties;
pub mod queries;
pub mod replays;
pub mod replies;
mod rows;
mod runs;
mod session_party;
mod sheet_party;

pub use findings::Finding;
pub use outcomes::{Outcome, ReplayFault};
pub use queries::Query;
pub use replays::replay;
pub use replies::Reply;

#[cfg(test)]
mod tests;
