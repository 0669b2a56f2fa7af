// Tapes: lines over registers, the sheets that mean them, and the table that a session edits.
#![tactic(auto)]

pub mod edits;
pub mod laws;
pub mod lines;
pub mod marks;
pub mod messages;
pub mod refusals;
pub mod sheets;
pub mod table_sheet;
pub mod tables;

pub use laws::rows_are_determined;
pub use lines::Line;
pub use refusals::Refusal;
pub use sheets::Sheet;
pub use tables::Table;
