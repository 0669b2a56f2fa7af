// The commands of a script.
use kind::Ticks;
use session::Call;
use tape::Line;

// A number kind, by the name that a script has for it.
#[derive(Clone, Copy)]
pub enum Choice {
    Ticks,
    Residues,
    Sizes,
}

// What a session or an exporter is asked of a register. It owns what a script wrote; `replay::Query` borrows it. A direction is handed on as it is written.
#[derive(Drop)]
pub enum Query<K> {
    Value(usize),
    Gradient(usize),
    Slope(usize, Vec<K>),
    Bend(usize, Vec<K>),
}

impl<K: Copy> Query<K> {
    // The same query, with its direction where it lies.
    pub(crate) fn borrowed(&self) -> replay::Query<'_, K> {
        match self {
            Query::Value(r) => replay::Query::Value(*r),
            Query::Gradient(r) => replay::Query::Gradient(*r),
            Query::Slope(r, direction) => replay::Query::Slope(*r, direction.as_slice()),
            Query::Bend(r, direction) => replay::Query::Bend(*r, direction.as_slice()),
        }
    }
}

// What is asked in whole numbers of an open session: the value and the slope of a register, or the steps along a direction that
// keep the tests of some registers. Directions are in ticks, whatever the kind in force.
#[derive(Drop)]
pub enum WholeQuery {
    Exact(usize, Vec<Ticks>),
    Steps(Vec<Ticks>, Vec<usize>),
}

// What is asked of an open session. It owns what a script wrote; `session::Call` borrows it.
#[derive(Drop)]
pub enum Step<K> {
    Set(usize, K),
    Add(Line),
    Change(usize, Line),
    Drop,
    Ask(Query<K>),
    Waiting,
    Controls,
    Save,
}

impl<K: Copy> Step<K> {
    // The session's call.
    pub(crate) fn call(&self) -> Call<'_, K> {
        match self {
            Step::Set(i, x) => Call::Set(*i, *x),
            Step::Add(line) => Call::Add(*line),
            Step::Change(register, line) => Call::Change(*register, *line),
            Step::Drop => Call::Drop,
            Step::Ask(Query::Value(r)) => Call::Value(*r),
            Step::Ask(Query::Gradient(r)) => Call::Gradient(*r),
            Step::Ask(Query::Slope(r, direction)) => Call::Slope(*r, direction.as_slice()),
            Step::Ask(Query::Bend(r, direction)) => Call::Bend(*r, direction.as_slice()),
            Step::Waiting => Call::Waiting,
            Step::Controls => Call::Controls,
            Step::Save => Call::Save,
        }
    }
}

// A session to be opened: the number of controls, the rest row, and the length of the register row.
#[derive(Drop)]
pub struct Request<K> {
    pub controls: usize,
    pub rest: Vec<K>,
    pub room: usize,
}

// What an exporter is asked: a query, a packed file, and the numbers of the controls.
#[derive(Drop)]
pub struct Export<K> {
    pub query: Query<K>,
    pub file: Vec<u8>,
    pub controls: Vec<K>,
}

#[derive(Drop)]
pub enum Command<K> {
    Help,
    Kind(Choice),
    Room(usize),
    Open(Request<K>),
    Session(Step<K>),
    // no call of a session, so that a run is replayed without it
    Whole(WholeQuery),
    Load(Vec<u8>),
    Export(Export<K>),
}
