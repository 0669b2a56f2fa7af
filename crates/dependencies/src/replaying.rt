// The main theorem at this kind. It asks no proof besides the kind's own.
ghost use Rattle.replay.specs.Replays.{Replayed};
ghost use Rattle.dependencies.specs.Patterns.{depends, pattern_operations};

use crate::patterns::Dependence;
use replay::{Outcome, Query, ReplayFault, Reply};
use session::Call;
use std::alloc::Global;
use tape::Sheet;

// Makes the calls on a new session, and asks the query of that session, of the exporter on the file that it saves, and of the
// exporter on the sheet. All answer alike, and as the definitions do; the last where the sheet means the session's tape.
pub fn replayed<S: Sheet>(
    heap: Global,
    n: usize,
    rest: &[Dependence],
    room: usize,
    calls: &[Call<Dependence>],
    query: &Query<Dependence>,
    sheet: &S,
    out: &mut Outcome<Dependence>,
) -> Result<(), ReplayFault>
    ensures { Replayed pattern_operations depends n rest.now room calls.now query.now (S.Sheet.tape sheet.now) out.old out.new result }
{
    replay::replay(heap, n, rest, room, calls, query, sheet, out)
}

// An outcome to write to.
pub fn blank() -> Outcome<Dependence> {
    let nothing = Reply::Value(Dependence(false));
    Outcome {
        session: nothing,
        from_file: nothing,
        on_sheet: nothing,
        controls: [Dependence(false); 128],
        file: [0; 4483],
        length: 0,
    }
}
