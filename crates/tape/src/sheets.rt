// What means a tape.
ghost use Rattle.std.specs.Prelude.{◌≡◌, ◌<◌, false, length, OnOk};
ghost use Rattle.tape.specs.Tapes.{Tape, Valid, line, registers};
ghost use Rattle.tape.specs.Refusals.{Answered, refuse_line, refuse_query};

use crate::lines::Line;
use crate::refusals::Refusal;

// Sheet: whatever means a tape, a table as well as a file's bytes. The sweeps know a tape by its sheet alone.
pub trait Sheet {
    ghost tape: { Self → Tape };

    // Its law, a member so that a sheet with a lifetime may have it too.
    ghost keeps: { (s : Self) → Valid (tape s) };

    fn controls(&self) -> usize
        ensures { result ≡ (tape self.now).controls };

    // The number of lines.
    fn count(&self) -> usize
        ensures { result ≡ length (tape self.now).lines };

    // The number of registers: the controls, and one for each line.
    fn registers(&self) -> usize
        ensures { result ≡ registers (tape self.now) }
    {
        self.controls() + self.count()
    }

    // Line j, counted from 0.
    fn line(&self, j: usize) -> Result<Line, Refusal>
        ensures { Answered (refuse_line (tape self.now) j) result (Unit {0}) (λ l. l ≡ line (tape self.now) j) };

    // Whether register r may be asked for, by a call that was lent rows of which one is too short or none is.
    fn check_query(&self, r: usize, short: bool) -> Result<(), Refusal>
        ensures refusal { Answered (refuse_query (tape self.now) short r) result (Unit {0}) (λ _. Unit {0}) }
        ensures known { OnOk result (r < registers (tape self.now)) }
        ensures full { OnOk result (short ≡ false) }
    {
        if r >= self.registers() {
            return Err(Refusal::Unknown(r));
        }
        if short {
            return Err(Refusal::Short);
        }
        Ok(())
    }
}
