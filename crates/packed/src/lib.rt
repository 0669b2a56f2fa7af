// The packed tape file: one file for each tape, read straight from its bytes.
#![tactic(auto)]

pub mod copying;
mod cursors;
pub mod faults;
mod fields;
mod kinds;
pub mod looks;
pub mod messages;
pub mod reading;
pub mod saving;
pub mod theorems;
pub mod views;
mod writing;

pub use copying::CopyFault;
pub use faults::{FileFault, LineFault};
pub use looks::file_fault;
pub use reading::open;
pub use saving::save;
pub use theorems::copy_file;
pub use views::View;

#[cfg(test)]
mod tests;
