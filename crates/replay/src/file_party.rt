// The exporter over a packed file.
ghost use Rattle.replay.specs.declared.queries.Query.TheVariants.{Value, Gradient, Slope, Bend};
ghost use Rattle.replay.specs.Answers.{exported};
ghost use Rattle.replay.specs.Parties.{FileReplied};

use crate::findings::Finding;
use crate::parties::Party;
use crate::rows::Rows;
use export::ExportFault;
use kind::Kind;

// A packed file, and the numbers of the controls. (Not the sheet of its view: the exporter of files is the one that is asked.)
#[derive(Clone, Copy)]
pub(crate) struct OnFile<'a, K> {
    pub(crate) file: &'a [u8],
    pub(crate) controls: &'a [K],
}

impl<'a, K: Kind> Party<K> for OnFile<'a, K> {
    type Fault = ExportFault;

    ghost answers = { λ p q a. FileReplied K.Kind.ops K.Kind.means p.file.now p.controls.now q (exported K.Kind.means a) };

    fn ask_value(&mut self, r: usize, rows: Rows<K>) -> Result<Finding<K>, ExportFault>
        ensures { FileReplied K.Kind.ops K.Kind.means self.old.file.now self.old.controls.now (Value r) (exported K.Kind.means result) }
    {
        let Rows { mut row, .. } = rows;
        let x = export::value(self.file, self.controls, r, row.as_mut_slice())?;
        Ok(Finding::Value(x))
    }

    fn ask_gradient(&mut self, r: usize, rows: Rows<K>) -> Result<Finding<K>, ExportFault>
        ensures { FileReplied K.Kind.ops K.Kind.means self.old.file.now self.old.controls.now (Gradient r) (exported K.Kind.means result) }
    {
        let Rows {
            mut row,
            mut adjoint,
            ..
        } = rows;
        let (work, back) = (row.as_mut_slice(), adjoint.as_mut_slice());
        let answer = export::gradient(self.file, self.controls, r, work, back)?;
        adjoint.truncate(self.controls.len());
        Ok(Finding::Gradient(answer.value, adjoint, answer.operations))
    }

    fn ask_slope(
        &mut self,
        r: usize,
        direction: &[K],
        rows: Rows<K>,
    ) -> Result<Finding<K>, ExportFault>
        ensures { FileReplied K.Kind.ops K.Kind.means self.old.file.now self.old.controls.now (Slope r direction.entry) (exported K.Kind.means result) }
    {
        let Rows { mut pairs, .. } = rows;
        let x = export::slope(self.file, self.controls, direction, r, pairs.as_mut_slice())?;
        Ok(Finding::Slope(x))
    }

    fn ask_bend(
        &mut self,
        r: usize,
        direction: &[K],
        rows: Rows<K>,
    ) -> Result<Finding<K>, ExportFault>
        ensures { FileReplied K.Kind.ops K.Kind.means self.old.file.now self.old.controls.now (Bend r direction.entry) (exported K.Kind.means result) }
    {
        let Rows {
            mut row,
            mut pairs,
            mut adjoint_pairs,
            ..
        } = rows;
        export::bend(
            self.file,
            self.controls,
            direction,
            r,
            pairs.as_mut_slice(),
            adjoint_pairs.as_mut_slice(),
            row.as_mut_slice(),
        )?;
        row.truncate(self.controls.len());
        Ok(Finding::Bend(row))
    }
}
