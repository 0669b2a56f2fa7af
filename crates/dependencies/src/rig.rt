// A small rig of three controls, and the edits that are made on it.
use crate::patterns::Dependence;
use session::Call;
use tape::Line;

pub const CONTROLS: usize = 3;

// An edit, and the register that is asked for after it.
#[derive(Clone, Copy)]
pub struct Edit {
    pub words: &'static str,
    pub call: Call<'static, Dependence>,
    pub register: usize,
}

impl Edit {
    fn new(words: &'static str, call: Call<'static, Dependence>, register: usize) -> Edit {
        Edit {
            words,
            call,
            register,
        }
    }
}

// Opened with every control at one. What is at zero blocks the products that read it.
pub fn edits() -> [Edit; 11] {
    [
        Edit::new("add multiply 0 1", Call::Add(Line::Multiply(0, 1)), 3),
        Edit::new("add add 3 2", Call::Add(Line::Add(3, 2)), 4),
        // control 2 drops out, and comes back
        Edit::new("change 4 add 3 0", Call::Change(4, Line::Add(3, 0)), 4),
        Edit::new("change 4 add 3 2", Call::Change(4, Line::Add(3, 2)), 4),
        // control 1 blocks control 0, and lets it through again
        Edit::new("set 1 to zero", Call::Set(1, Dependence(false)), 4),
        Edit::new("set 1 to one", Call::Set(1, Dependence(true)), 4),
        // a constant blocks all, and lets all through
        Edit::new("add constant 0", Call::Add(Line::Constant(0)), 5),
        Edit::new("add multiply 4 5", Call::Add(Line::Multiply(4, 5)), 6),
        Edit::new("change 5 constant 7", Call::Change(5, Line::Constant(7)), 6),
        // declined: the line may not read a register above its own
        Edit::new("change 3 add 0 4", Call::Change(3, Line::Add(0, 4)), 6),
        Edit::new("drop", Call::Drop, 6),
    ]
}
