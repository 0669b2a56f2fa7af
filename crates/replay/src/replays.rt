// A run replayed, and both parties asked.
ghost use Rattle.std.specs.Prelude.{◌≡◌, length, map, IfOk, MatchResult};
ghost use Rattle.packed.specs.Writing.{Saved};
ghost use Rattle.session.specs.Runs.{Good};
ghost use Rattle.session.specs.States.{state};
ghost use Rattle.sweep.specs.Forward.{given};
ghost use Rattle.replay.specs.Replays.{Reported, Replayed};

use crate::file_party::OnFile;
use crate::outcomes::{Outcome, ReplayFault};
use crate::parties::ask;
use crate::queries::Query;
use crate::replies::Reply;
use crate::rows::{LONGEST_FILE, MOST_CONTROLS, Rows, front, zeros};
use crate::runs::make_all;
use crate::sheet_party::OnSheet;
use export::ExportFault;
use kind::Kind;
use session::{Call, Opening, Session};
use std::alloc::{AllocError, Global};
use tape::Sheet;

// The file of the session's tape, saved now. Every tape's file has room in 4,483 bytes.
fn save_file<K: Kind>(session: &Session<K>, file: &mut [u8]) -> usize
    requires { length file.old ≡ 4483 }
    ensures { Saved (state session.now).tape file.old file.new result }
{
    session.save(file).unwrap_or(0)
}

// The numbers of the controls, copied out now.
fn controls_of<K: Kind>(heap: Global, session: &Session<K>) -> Result<Vec<K>, AllocError>
    ensures count { IfOk result (λ controls. length controls.items ≡ (state session.now).tape.controls) }
    ensures given { IfOk result (λ controls. Good K.Kind.ops K.Kind.means (state session.now) → map K.Kind.means controls.items ≡ given K.Kind.means (state session.now).tape (state session.now).row) }
{
    let mut controls = zeros(heap, session.control_count())?;
    let _ = session.controls(controls.as_mut_slice());
    Ok(controls)
}

// The same numbers at the front of a row of zeros that has a number for each control of any sheet.
fn controls_for_any<K: Kind>(heap: Global, session: &Session<K>) -> Result<Vec<K>, AllocError>
    ensures count { IfOk result (λ row. length row.items ≡ 128) }
    ensures given { IfOk result (λ row. Good K.Kind.ops K.Kind.means (state session.now) → given K.Kind.means (state session.now).tape row.items ≡ given K.Kind.means (state session.now).tape (state session.now).row) }
{
    let mut row = zeros(heap, MOST_CONTROLS)?;
    let _ = session.controls(row.as_mut_slice());
    Ok(row)
}

// Asks both parties: the session, the exporter on the file saved now, and the exporter on a sheet, at the controls copied out now.
fn report<K: Kind, S: Sheet>(
    heap: Global,
    session: &mut Session<K>,
    query: &Query<K>,
    sheet: &S,
    out: &mut Outcome<K>,
) -> Result<(), AllocError>
    ensures { MatchResult result (λ _. Reported K.Kind.ops K.Kind.means (state session.old) query.now (S.Sheet.tape sheet.now) out.new) (λ _. out.new ≡ out.old) }
{
    let mut file = [0; LONGEST_FILE];
    let length = save_file(session, &mut file);
    let controls = controls_of(heap, session)?;
    let mut on_file = OnFile {
        file: &file[..length],
        controls: &controls,
    };
    let from_file = ask(&mut on_file, query, Rows::new(heap)?);
    // (a sheet of more controls than the session is answered with zeros for them)
    let row = controls_for_any(heap, session)?;
    let mut on_sheet = OnSheet {
        sheet,
        controls: &row,
    };
    let on_sheet = ask(&mut on_sheet, query, Rows::new(heap)?);
    let by_session = ask(session, query, Rows::new(heap)?);
    *out = Outcome {
        session: Reply::of(by_session.map_err(ExportFault::Query)),
        from_file: Reply::of(from_file),
        on_sheet: Reply::of(on_sheet.map_err(ExportFault::Query)),
        controls: front(&controls),
        file,
        length,
    };
    Ok(())
}

// Opens a session with n controls at the rest row and so much room in its register row, makes every call, and asks both parties
// the query. Whatever the calls were, the session and the exporter answer alike. (The outcome is lent: code that is generic in the
// kind cannot show that one fits in memory, but can hand on one that it was handed.)
pub fn replay<K: Kind, S: Sheet>(
    heap: Global,
    n: usize,
    rest: &[K],
    room: usize,
    calls: &[Call<K>],
    query: &Query<K>,
    sheet: &S,
    out: &mut Outcome<K>,
) -> Result<(), ReplayFault>
    ensures { Replayed K.Kind.ops K.Kind.means n rest.now room calls.now query.now (S.Sheet.tape sheet.now) out.old out.new result }
{
    let mut row = zeros(heap, room)?;
    let opening = Opening::new(n, rest, row.as_slice())?;
    let mut session = Session::open(opening, rest, row.as_mut_slice());
    make_all(heap, &mut session, calls)?;
    Ok(report(heap, &mut session, query, sheet, out)?)
}
