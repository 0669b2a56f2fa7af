// The exporter over any sheet.
ghost use Rattle.replay.specs.declared.queries.Query.TheVariants.{Value, Gradient, Slope, Bend};
ghost use Rattle.replay.specs.Answers.{said};
ghost use Rattle.replay.specs.Parties.{SheetReplied};

use crate::findings::Finding;
use crate::parties::Party;
use crate::rows::Rows;
use kind::Kind;
use tape::{Refusal, Sheet};

// A sheet, and the numbers of the controls.
#[derive(Drop)]
pub(crate) struct OnSheet<'a, K, S> {
    pub(crate) sheet: &'a S,
    pub(crate) controls: &'a [K],
}

impl<'a, K: Kind, S: Sheet> Party<K> for OnSheet<'a, K, S> {
    type Fault = Refusal;

    ghost answers = { λ p q a. SheetReplied K.Kind.ops K.Kind.means (S.Sheet.tape p.sheet.now) p.controls.now q (said K.Kind.means a) };

    fn ask_value(&mut self, r: usize, rows: Rows<K>) -> Result<Finding<K>, Refusal>
        ensures { SheetReplied K.Kind.ops K.Kind.means (S.Sheet.tape self.old.sheet.now) self.old.controls.now (Value r) (said K.Kind.means result) }
    {
        let Rows { mut row, .. } = rows;
        let x = sweep::value(self.sheet, self.controls, r, row.as_mut_slice())?;
        Ok(Finding::Value(x))
    }

    fn ask_gradient(&mut self, r: usize, rows: Rows<K>) -> Result<Finding<K>, Refusal>
        ensures { SheetReplied K.Kind.ops K.Kind.means (S.Sheet.tape self.old.sheet.now) self.old.controls.now (Gradient r) (said K.Kind.means result) }
    {
        let Rows {
            mut row,
            mut adjoint,
            ..
        } = rows;
        let (work, back) = (row.as_mut_slice(), adjoint.as_mut_slice());
        let answer = sweep::gradient(self.sheet, self.controls, r, work, back)?;
        adjoint.truncate(self.sheet.controls());
        Ok(Finding::Gradient(answer.value, adjoint, answer.operations))
    }

    fn ask_slope(&mut self, r: usize, direction: &[K], rows: Rows<K>) -> Result<Finding<K>, Refusal>
        ensures { SheetReplied K.Kind.ops K.Kind.means (S.Sheet.tape self.old.sheet.now) self.old.controls.now (Slope r direction.entry) (said K.Kind.means result) }
    {
        let Rows { mut pairs, .. } = rows;
        let x = sweep::slope(
            self.sheet,
            self.controls,
            direction,
            r,
            pairs.as_mut_slice(),
        )?;
        Ok(Finding::Slope(x))
    }

    fn ask_bend(&mut self, r: usize, direction: &[K], rows: Rows<K>) -> Result<Finding<K>, Refusal>
        ensures { SheetReplied K.Kind.ops K.Kind.means (S.Sheet.tape self.old.sheet.now) self.old.controls.now (Bend r direction.entry) (said K.Kind.means result) }
    {
        let Rows {
            mut row,
            mut pairs,
            mut adjoint_pairs,
            ..
        } = rows;
        sweep::bend(
            self.sheet,
            self.controls,
            direction,
            r,
            pairs.as_mut_slice(),
            adjoint_pairs.as_mut_slice(),
            row.as_mut_slice(),
        )?;
        row.truncate(self.sheet.controls());
        Ok(Finding::Bend(row))
    }
}
