// Number kinds: the arithmetic that every sweep of the kernel is written over.
#![tactic(auto)]

pub mod capped;
pub mod dual;
pub mod kinds;
pub mod modular;
pub mod rows;
pub mod wrapping;

pub use capped::Size;
pub use dual::Pair;
pub use kinds::Kind;
pub use modular::Residue;
pub use rows::dot;
pub use wrapping::Ticks;

#[cfg(test)]
mod tests;
