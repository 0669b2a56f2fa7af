// What a command answers.
use crate::commands::Choice;
use crate::numbers::Number;
use exact::{StepRange, Whole};
use replay::Finding;
use std::fmt;

// What a session found, and how many lines it worked out for that.
#[derive(Drop)]
pub struct Asked<K> {
    pub finding: Finding<K>,
    pub worked: usize,
}

#[derive(Drop)]
pub enum Reply<K> {
    Open(usize),
    Set(usize),
    Register(usize),
    Changed(usize),
    Dropped,
    Asked(Asked<K>),
    Exported(Finding<K>),
    Exact(Whole),
    Steps(StepRange),
    Waiting(Option<usize>),
    Controls(Vec<K>),
    Saved(Vec<u8>),
    // the controls and the lines of a file
    File(usize, usize),
}

// Writes each number after a space.
fn write_row<K: Number, W: fmt::Write>(row: &[K], f: &mut fmt::Formatter<W>) -> fmt::Result {
    for x in row {
        let held = x.held();
        write!(f, " {held}")?;
    }
    Ok(())
}

// Writes each byte in two hexadecimal digits.
fn write_hex<W: fmt::Write>(bytes: &[u8], f: &mut fmt::Formatter<W>) -> fmt::Result {
    for b in bytes {
        write!(f, "{b:02x}")?;
    }
    Ok(())
}

// Writes a finding, with the lines that were worked out for it, if that is known.
fn write_finding<K: Number, W: fmt::Write>(
    finding: &Finding<K>,
    worked: Option<usize>,
    f: &mut fmt::Formatter<W>,
) -> fmt::Result {
    match finding {
        Finding::Value(x) => {
            let held = x.held();
            write!(f, "value {held}")?;
            write_lines(worked, f)
        }
        Finding::Gradient(x, entries, operations) => {
            write!(f, "gradient")?;
            write_row(entries.as_slice(), f)?;
            let held = x.held();
            write!(f, " value {held}")?;
            write_lines(worked, f)?;
            write!(f, " operations {operations}")
        }
        Finding::Slope(x) => {
            let held = x.held();
            write!(f, "slope {held}")
        }
        Finding::Bend(entries) => {
            write!(f, "bend")?;
            write_row(entries.as_slice(), f)
        }
    }
}

fn write_lines<W: fmt::Write>(worked: Option<usize>, f: &mut fmt::Formatter<W>) -> fmt::Result {
    match worked {
        Some(lines) => write!(f, " lines {lines}"),
        None => Ok(()),
    }
}

impl fmt::Display for Choice {
    fn fmt<W: fmt::Write>(&self, f: &mut fmt::Formatter<W>) -> fmt::Result {
        match self {
            Choice::Ticks => write!(f, "ticks"),
            Choice::Residues => write!(f, "residues"),
            Choice::Sizes => write!(f, "sizes"),
        }
    }
}

impl<K: Number> fmt::Display for Reply<K> {
    fn fmt<W: fmt::Write>(&self, f: &mut fmt::Formatter<W>) -> fmt::Result {
        match self {
            Reply::Open(n) => write!(f, "open {n}"),
            Reply::Set(i) => write!(f, "set {i}"),
            Reply::Register(r) => write!(f, "register {r}"),
            Reply::Changed(r) => write!(f, "changed {r}"),
            Reply::Dropped => write!(f, "dropped"),
            Reply::Asked(asked) => write_finding(&asked.finding, Some(asked.worked), f),
            Reply::Exported(finding) => write_finding(finding, None, f),
            Reply::Exact(Whole { value, slope }) => write!(f, "exact value {value} slope {slope}"),
            Reply::Steps(StepRange { low, high }) => write!(f, "steps {low} {high}"),
            Reply::Waiting(Some(r)) => write!(f, "waiting {r}"),
            Reply::Waiting(None) => write!(f, "waiting none"),
            Reply::Controls(row) => {
                write!(f, "controls")?;
                write_row(row.as_slice(), f)
            }
            Reply::Saved(bytes) => {
                let length = bytes.len();
                write!(f, "saved {length} ")?;
                write_hex(bytes.as_slice(), f)
            }
            Reply::File(n, lines) => write!(f, "file controls {n} lines {lines}"),
        }
    }
}
