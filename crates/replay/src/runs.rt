// The calls of a run, made on a session. What a call answers is let go: the query at the run's end is the one that is compared.
ghost use Rattle.session.specs.declared.calls.Call.TheVariants as call;
ghost use Rattle.session.specs.States.{state};
ghost use Rattle.std.specs.Prelude.{OnOk};
ghost use Rattle.replay.specs.Runs.{Steps, Ran};

use crate::rows::{LONGEST_FILE, Rows, zeros};
use kind::Kind;
use session::{Call, Session};
use std::alloc::{AllocError, Global};

// (Not by the party's methods: they promise an answer, and nothing of the state after.)

fn make_gradient<K: Kind>(
    heap: Global,
    session: &mut Session<K>,
    register: usize,
) -> Result<(), AllocError>
    ensures { Steps K.Kind.ops K.Kind.means (call.Gradient register) (state session.old) (state session.new) }
{
    let Rows { mut adjoint, .. } = Rows::new(heap)?;
    let _ = session.gradient(register, adjoint.as_mut_slice());
    Ok(())
}

// The derivatives and the controls only read the session.

fn make_slope<K: Kind>(
    heap: Global,
    session: &Session<K>,
    register: usize,
    direction: &[K],
) -> Result<(), AllocError> {
    let Rows { mut pairs, .. } = Rows::new(heap)?;
    let _ = session.slope(register, direction, pairs.as_mut_slice());
    Ok(())
}

fn make_bend<K: Kind>(
    heap: Global,
    session: &Session<K>,
    register: usize,
    direction: &[K],
) -> Result<(), AllocError> {
    let Rows {
        mut row,
        mut pairs,
        mut adjoint_pairs,
        ..
    } = Rows::new(heap)?;
    let _ = session.bend(
        register,
        direction,
        pairs.as_mut_slice(),
        adjoint_pairs.as_mut_slice(),
        row.as_mut_slice(),
    );
    Ok(())
}

fn make_controls<K: Kind>(heap: Global, session: &Session<K>) -> Result<(), AllocError> {
    let mut out = zeros(heap, session.control_count())?;
    let _ = session.controls(out.as_mut_slice());
    Ok(())
}

fn make_save<K: Kind>(session: &Session<K>) {
    let mut file = [0; LONGEST_FILE];
    let _ = session.save(&mut file);
}

// Makes a call.
fn make<K: Kind>(heap: Global, session: &mut Session<K>, call: &Call<K>) -> Result<(), AllocError>
    ensures { Steps K.Kind.ops K.Kind.means call.now (state session.old) (state session.new) }
{
    match call {
        Call::Set(control, x) => {
            let _ = session.set(*control, *x);
        }
        Call::Add(line) => {
            let _ = session.add(*line);
        }
        Call::Change(register, line) => {
            let _ = session.change(*register, *line);
        }
        Call::Drop => {
            let _ = session.drop_last();
        }
        Call::Save => make_save(session),
        Call::Value(register) => {
            let _ = session.value(*register);
        }
        Call::Gradient(register) => make_gradient(heap, session, *register)?,
        Call::Slope(register, direction) => make_slope(heap, session, *register, direction)?,
        Call::Bend(register, direction) => make_bend(heap, session, *register, direction)?,
        Call::Waiting => {
            let _ = session.waiting();
        }
        Call::Controls => make_controls(heap, session)?,
    }
    Ok(())
}

// Makes every call, in order.
pub(crate) fn make_all<K: Kind>(
    heap: Global,
    session: &mut Session<K>,
    calls: &[Call<K>],
) -> Result<(), AllocError>
    ensures { OnOk result (Ran K.Kind.ops K.Kind.means calls.now (state session.old) (state session.new)) }
{
    for call in calls {
        make(heap, session, call)?;
    }
    Ok(())
}
