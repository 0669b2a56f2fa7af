// The exporter: queries answered from a packed file and a control row, with nothing kept.
#![tactic(auto)]

pub mod faults;
pub mod files;
pub mod messages;

pub use faults::ExportFault;
pub use files::{bend, gradient, slope, value};
