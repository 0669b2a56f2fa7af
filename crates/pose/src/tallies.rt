// What a script came to.
use std::alloc::{AllocError, Global};
use std::fmt;

#[derive(Drop)]
pub struct Tally {
    calls: u64,
    declined: u64,
    queries: u64,
    runs: u64,
    // the lines of the queries, and of the runs that were replayed, on which the session and the exporter differed
    differ: Vec<usize>,
}

impl Tally {
    pub fn new(heap: Global) -> Tally {
        Tally {
            calls: 0,
            declined: 0,
            queries: 0,
            runs: 0,
            differ: Vec::new(heap),
        }
    }

    // A call that was answered, or declined.
    pub fn count_call(&mut self, declined: bool) {
        self.calls = self.calls.saturating_add(1);
        if declined {
            self.declined = self.declined.saturating_add(1);
        }
    }

    fn compare(&mut self, line: usize, agreed: bool) -> Result<(), AllocError> {
        if !agreed {
            self.differ.push(line)?;
        }
        Ok(())
    }

    // A query of a session, in this line of the script, on which the exporter agreed, or did not.
    pub fn count_query(&mut self, line: usize, agreed: bool) -> Result<(), AllocError> {
        self.queries = self.queries.saturating_add(1);
        self.compare(line, agreed)
    }

    // A run that was opened in this line, and replayed at its end.
    pub fn count_run(&mut self, line: usize, agreed: bool) -> Result<(), AllocError> {
        self.runs = self.runs.saturating_add(1);
        self.compare(line, agreed)
    }
}

impl fmt::Display for Tally {
    fn fmt<W: fmt::Write>(&self, f: &mut fmt::Formatter<W>) -> fmt::Result {
        let calls = self.calls;
        let declined = self.declined;
        let queries = self.queries;
        let runs = self.runs;
        write!(f, "summary: calls {calls}, declined {declined}, ")?;
        write!(f, "queries {queries}, runs {runs}; ")?;
        if self.differ.is_empty() {
            return write!(f, "session and exporter agreed on all of them");
        }
        write!(f, "session and exporter differed at line")?;
        for line in self.differ.iter() {
            write!(f, " {line}")?;
        }
        Ok(())
    }
}
