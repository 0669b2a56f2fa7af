// The sweeps over any sheet and any number kind, from nothing kept: values and slopes going up the lines,
// gradients and bends going down.
#![tactic(auto)]

pub mod answers;
pub mod filling;
pub mod forward;
pub mod reverse;
pub mod rows;
pub mod theorems;
pub mod walking;

pub use answers::Gradient;
pub use filling::evaluate;
pub use forward::{slope, value};
pub use reverse::{bend, gradient};
pub use theorems::reverse_is_forward;
pub use walking::backward;
