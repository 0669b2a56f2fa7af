// Small examples, each with its answers worked out by hand: one proved table, and tests.
#![tactic(auto)]

#[cfg(test)]
mod limits;
pub mod poses;
#[cfg(test)]
mod squares;
#[cfg(test)]
mod tables;
#[cfg(test)]
mod two_products;
#[cfg(test)]
mod whole_numbers;

pub use poses::worked_poses;
