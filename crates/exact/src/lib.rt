// Whole numbers from ticks: exact values and slopes, and how far a step may go before a test changes.
#![tactic(auto)]

pub mod answers;
pub mod narrowing;
pub mod questions;
pub mod readings;
pub mod stepping;
pub mod theorems;
pub mod wholes;

pub use answers::{StepRange, Whole};
pub use stepping::steps;
pub use theorems::ticks_and_sizes;
pub use wholes::exact;
