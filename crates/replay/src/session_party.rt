// The session's answers.
ghost use Rattle.session.specs.States.{state};
ghost use Rattle.replay.specs.Parties.{SessionReplied};
ghost use Rattle.replay.specs.declared.queries.Query.TheVariants.{Value, Gradient, Slope, Bend};
ghost use Rattle.replay.specs.Answers.{said};

use crate::findings::Finding;
use crate::parties::Party;
use crate::rows::Rows;
use kind::Kind;
use session::Session;
use tape::Refusal;

impl<'a, K: Kind> Party<K> for Session<'a, K> {
    type Fault = Refusal;

    ghost answers = { λ s q a. SessionReplied K.Kind.ops K.Kind.means (state s) q (said K.Kind.means a) };

    fn ask_value(&mut self, r: usize, _rows: Rows<K>) -> Result<Finding<K>, Refusal>
        ensures { SessionReplied K.Kind.ops K.Kind.means (state self.old) (Value r) (said K.Kind.means result) }
    {
        let answer = self.value(r)?;
        Ok(Finding::Value(answer.value))
    }

    fn ask_gradient(&mut self, r: usize, rows: Rows<K>) -> Result<Finding<K>, Refusal>
        ensures { SessionReplied K.Kind.ops K.Kind.means (state self.old) (Gradient r) (said K.Kind.means result) }
    {
        let Rows { mut adjoint, .. } = rows;
        let answer = self.gradient(r, adjoint.as_mut_slice())?;
        adjoint.truncate(self.control_count());
        Ok(Finding::Gradient(answer.value, adjoint, answer.operations))
    }

    fn ask_slope(&mut self, r: usize, direction: &[K], rows: Rows<K>) -> Result<Finding<K>, Refusal>
        ensures { SessionReplied K.Kind.ops K.Kind.means (state self.old) (Slope r direction.entry) (said K.Kind.means result) }
    {
        let Rows { mut pairs, .. } = rows;
        Ok(Finding::Slope(self.slope(r, direction, pairs.as_mut_slice())?))
    }

    fn ask_bend(&mut self, r: usize, direction: &[K], rows: Rows<K>) -> Result<Finding<K>, Refusal>
        ensures { SessionReplied K.Kind.ops K.Kind.means (state self.old) (Bend r direction.entry) (said K.Kind.means result) }
    {
        let Rows {
            mut row,
            mut pairs,
            mut adjoint_pairs,
            ..
        } = rows;
        self.bend(
            r,
            direction,
            pairs.as_mut_slice(),
            adjoint_pairs.as_mut_slice(),
            row.as_mut_slice(),
        )?;
        row.truncate(self.control_count());
        Ok(Finding::Bend(row))
    }
}
