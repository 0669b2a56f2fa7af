// What a call about whole numbers is about, and the work that it asks for.
ghost use Rattle.std.specs.Prelude.{◌≡◌, ◌≤◌, length, OnOk};
ghost use Rattle.tape.specs.Refusals.{Answered};
ghost use Rattle.tape.specs.Tapes.{registers};
ghost use Rattle.exact.specs.Exact.{Admitted, FilledWhole, Worked, lengths, work};
ghost use Rattle.exact.specs.Refusals.{refuse_registers};
ghost use Rattle.exact.specs.Wholes.{question};

use kind::{Kind, Pair, Size, Ticks};
use sweep::evaluate;
use tape::{Refusal, Sheet};

// A tape, the ticks of its controls, and a direction.
#[derive(Drop)]
pub(crate) struct Question<'a, S> {
    pub(crate) sheet: &'a S,
    pub(crate) controls: &'a [Ticks],
    pub(crate) direction: &'a [Ticks],
}

impl<'a, S: Sheet> Question<'a, S> {
    // Declines a list with a register that there is not, or else rows of which one is too short.
    fn check(
        &self,
        tests: &[usize],
        pairs: &[Pair<Ticks>],
        sizes: &[Pair<Size>],
    ) -> Result<(), Refusal>
        ensures refusal { let q = question (S.Sheet.tape self.now.sheet.now) self.now.controls.now self.now.direction.now in
            Answered (refuse_registers q.tape (lengths q (work pairs.now sizes.now)) tests.now) result (Unit {0}) (λ _. Unit {0}) }
        ensures admitted { OnOk result (Admitted (question (S.Sheet.tape self.now.sheet.now) self.now.controls.now self.now.direction.now) tests.now (work pairs.now sizes.now)) }
    {
        let n = self.sheet.controls();
        let registers = self.sheet.registers();
        for r in tests {
            if *r >= registers {
                return Err(Refusal::Unknown(*r));
            }
        }
        // `|` has no branch, so the proof has one path.
        let short = (self.controls.len() < n)
            | (self.direction.len() < n)
            | (pairs.len() < registers)
            | (sizes.len() < registers);
        if short {
            return Err(Refusal::Short);
        }
        Ok(())
    }

    // The pair of every register, from the images of the controls and of the direction.
    fn fill<K: Kind>(&self, row: &mut [Pair<K>])
        requires given { (S.Sheet.tape self.now.sheet.now).controls ≤ length self.now.controls.now }
        requires directed { (S.Sheet.tape self.now.sheet.now).controls ≤ length self.now.direction.now }
        requires full { registers (S.Sheet.tape self.now.sheet.now) ≤ length row.old }
        ensures { FilledWhole K.Kind.ops K.Kind.means (question (S.Sheet.tape self.now.sheet.now) self.now.controls.now self.now.direction.now) row.old row.new }
    {
        let n = self.sheet.controls();
        // By the index: after a zip over `iter_mut` a proof knows no entry.
        for (i, pair) in row[..n].iter_mut().enumerate() {
            *pair = Pair {
                value: K::image(self.controls[i].0),
                tangent: K::image(self.direction[i].0),
            };
        }
        let registers = self.sheet.registers();
        evaluate(self.sheet, &mut row[..registers]);
    }

    // Fills both working rows, the one in ticks and the one in sizes, unless the call is declined.
    pub(crate) fn work(
        &self,
        tests: &[usize],
        pairs: &mut [Pair<Ticks>],
        sizes: &mut [Pair<Size>],
    ) -> Result<(), Refusal>
        ensures refusal { let q = question (S.Sheet.tape self.now.sheet.now) self.now.controls.now self.now.direction.now in
            Answered (refuse_registers q.tape (lengths q (work pairs.old sizes.old)) tests.now) result
            (work pairs.new sizes.new ≡ work pairs.old sizes.old)
            (λ _. Worked q (work pairs.old sizes.old) (work pairs.new sizes.new)) }
        ensures admitted { OnOk result (Admitted (question (S.Sheet.tape self.now.sheet.now) self.now.controls.now self.now.direction.now) tests.now (work pairs.old sizes.old)) }
    {
        self.check(tests, pairs, sizes)?;
        self.fill(pairs);
        self.fill(sizes);
        Ok(())
    }
}
