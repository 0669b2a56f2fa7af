// What calls come to, and the counts of a run.
use export::ExportFault;
use tape::Refusal;

// What a query gives, as words that can be compared: a value, and the operations of a walk.
#[derive(Clone, Copy, PartialEq, Eq, Default)]
pub struct Given {
    pub value: u64,
    pub operations: usize,
}

#[derive(Clone, Copy, Default)]
pub struct Tally {
    pub comparisons: u64,
    // calls that the session declined, the steps' and the comparisons'
    pub declined: u64,
    pub mismatches: u64,
}

impl Tally {
    pub fn call<T>(&mut self, outcome: &Result<T, Refusal>) {
        if outcome.is_err() {
            self.declined = self.declined.saturating_add(1);
        }
    }

    // The session's outcome beside the exporter's, and whether what they wrote is the same.
    pub fn comparison(
        &mut self,
        by_session: Result<Given, Refusal>,
        by_exporter: Result<Given, ExportFault>,
        written: bool,
    ) {
        self.call(&by_session);
        self.comparisons = self.comparisons.saturating_add(1);
        if by_session.map_err(ExportFault::Query) != by_exporter || !written {
            self.mismatches = self.mismatches.saturating_add(1);
        }
    }
}
