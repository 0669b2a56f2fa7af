// A long run of random steps in each kind.
#![tactic(auto)]

mod numbers;
mod outcomes;
mod queries;
mod random;
mod rows;
mod runs;

use kind::{Residue, Size, Ticks};
use numbers::Number;
use outcomes::Tally;
use random::Random;
use rows::{Rows, zeros};
use runs::Run;
use session::{Opening, Session};
use std::io;

const STEPS: usize = 2000;

fn soak<K: Number>(rt: &HostRuntime, name: &str, seed: u64) -> io::Result<()> {
    let mut random = Random(seed);
    let mut rows: Rows<K> = Rows::new(rt.alloc())?;
    rows.redirect(&mut random);
    let mut row = zeros(rt.alloc(), 64)?;
    let Ok(opening) = Opening::new(5, &rows.direction, &row) else {
        return println!(rt; "{name}: not opened");
    };
    let mut run = Run {
        session: Session::open(opening, &rows.direction, &mut row),
        random,
        rows,
        registers: 5,
        tally: Tally::default(),
    };
    run.steps(STEPS);
    let comparisons = run.tally.comparisons;
    let declined = run.tally.declined;
    let mismatches = run.tally.mismatches;
    println!(rt;
        "{name}: {STEPS} steps, {comparisons} comparisons, {declined} declined, {mismatches} mismatches"
    )
}

fn main(rt: HostRuntime) -> io::Result<()> {
    soak::<Ticks>(&rt, "ticks", 88172645463325252)?;
    soak::<Residue>(&rt, "residues", 1181783497276652981)?;
    soak::<Size>(&rt, "sizes", 7046029254386353131)
}
