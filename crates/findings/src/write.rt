//! Writing the finding of an examination.
// Model, table and trail come apart: table and trail are the caller's memory, lent for a call.
ghost use Rattle.std.specs.Prelude.{◌≡◌, length};
ghost use Rattle.examination.specs.Search.{exam_of};
ghost use Rattle.findings.specs.Writes.{finding_of, write_answer, write_left};

use crate::fault::WriteFault;
use crate::frame::{FRAME_LENGTH, Frame, put_bytes};
use bodies::kind::Kind;
use bodies::measure::body_size;
use bodies::write::write_body;
use examination::exam::Examination;
use examination::trail::Link;
use meaning::coded::Coded;
use meaning::model::Model;
use meaning::table::Table;
use sheets::read::LONGEST;

/// Writes the finding of an examination at the start of a buffer, and leaves the rest of it; answers how long it is.
pub fn write<M: Model, T: Table<State = M::State>>(
    exam: &Examination,
    model: &M,
    table: &T,
    trail: &[Link],
    sheet: &[u8],
    out: &mut [u8],
) -> Result<usize, WriteFault>
    ensures answer { result ≡ write_answer (length out.old) (finding_of M.State.Coded.code M.State.Coded.width (T.room table.now) (T.list table.now) trail.now (exam_of exam.now) sheet.now) }
    ensures out { out.new ≡ write_left out.old (finding_of M.State.Coded.code M.State.Coded.width (T.room table.now) (T.list table.now) trail.now (exam_of exam.now) sheet.now) }
{
    if sheet.len() > LONGEST {
        return Err(WriteFault::Long);
    }
    let outcome = exam.outcome();
    let kind = Kind::try_from(outcome)?;
    if !exam.matches(table, trail) {
        return Err(WriteFault::Mismatch);
    }
    let size = body_size(model, table, trail, outcome)?;
    let start = FRAME_LENGTH + sheet.len();
    let needed = start + size.length;
    if out.len() < needed {
        return Err(WriteFault::Short(needed));
    }
    // Each fits, which the check proves; `try_from` would add refusals that cannot come.
    let frame = Frame {
        kind,
        width: model.code_width() as u16,
        count: size.number as u32,
        sheet: sheet.len() as u32,
    };
    frame.put(out, size.length as u32);
    put_bytes(out, FRAME_LENGTH, sheet);
    write_body(model, table, trail, outcome, out, start as u16)?;
    Ok(needed)
}
