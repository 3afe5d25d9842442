//! The judge: accepts exactly the findings that are true, whatever bytes it is given.
// A `u32` becomes a `usize` by `as`: std has no `From` between them.
ghost use Rattle.std.specs.Prelude.{◌≡◌, Ok};
ghost use Rattle.bodies.specs.Acceptance.{Truth};
ghost use Rattle.findings.specs.Judges.{IsJudged, LentTables, Judging, judged_as_model, plain_answer};

use crate::fault::FindingFault;
use crate::frame::{FRAME_LENGTH, Frame, WIDTH_AT};
use crate::verdict::Verdict;
use bodies::judge::judge_body;
use handshake::model::Protocol;
use handshake::state::State as SceneState;
use meaning::coded::Coded;
use meaning::model::Model;
use meaning::table::Table;
use sheets::arrangement::Arrangement;
use sheets::read::read;
use tokens::model::TokenStore;
use tokens::state::State as StoreState;

// Judges the body behind a frame as one of this model: the width of its states' codes, and then the body.
fn judge_as<M: Model, T: Table<State = M::State>>(
    model: &M,
    frame: Frame,
    body: &[u8],
    table: &mut T,
) -> Result<(), FindingFault>
    ensures answer { result ≡ (judged_as_model (M.meaning model.now) M.State.Coded.code M.State.Coded.width frame body.now (T.list table.old) (T.room table.old)).answer }
    ensures left { T.list table.new ≡ (judged_as_model (M.meaning model.now) M.State.Coded.code M.State.Coded.width frame body.now (T.list table.old) (T.room table.old)).list }
    ensures room { T.room table.new ≡ T.room table.old }
    ensures truth { result ≡ Ok tt → Truth (M.meaning model.now) frame.kind }
{
    if usize::from(frame.width) != model.code_width() {
        return Err(FindingFault::Frame(WIDTH_AT));
    }
    judge_body(model, frame.kind, frame.count as usize, body, table)?;
    Ok(())
}

/// Judges the bytes of a finding. The sheet in it decides the kind of state, so a table for each is lent, and the one that
/// does not fit is neither tested nor changed.
pub fn judge<T: Table<State = SceneState>, U: Table<State = StoreState>>(
    finding: &[u8],
    scenes: &mut T,
    stores: &mut U,
) -> Result<Verdict, FindingFault>
    ensures judges { IsJudged finding.now (record { scenes = T.Table.list scenes.old; scene_room = T.Table.room scenes.old; stores = U.Table.list stores.old; store_room = U.Table.room stores.old }) (record { answer = plain_answer result; scenes = T.Table.list scenes.new; stores = U.Table.list stores.new }) }
    ensures rooms { (T.Table.room scenes.new ≡ T.Table.room scenes.old) × (U.Table.room stores.new ≡ U.Table.room stores.old) }
{
    let frame = Frame::try_from(finding)?;
    let start = FRAME_LENGTH + frame.sheet as usize;
    let docket = read(&finding[FRAME_LENGTH..start])?;
    let body = &finding[start..];
    match docket.arrangement {
        Arrangement::Handshake(arrangement) => {
            judge_as(&Protocol { arrangement }, frame, body, scenes)?;
        }
        Arrangement::Tokens(program) => {
            judge_as(&TokenStore { program }, frame, body, stores)?;
        }
    }
    Ok(Verdict {
        number: docket.number,
        model: docket.arrangement,
        kind: frame.kind,
    })
}
