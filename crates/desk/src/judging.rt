//! The judging of a finding in search trees.
ghost use Rattle.std.specs.Prelude.{◌≡◌, ◌+◌, ◌*◌, length, IfOk};
ghost use Rattle.desk.specs.Judged.{JudgesInEmptyTables};

use findings::fault::FindingFault;
use findings::judge::judge;
use findings::verdict::Verdict;
use handshake::model::Protocol;
use meaning::model::Model;
use sheets::arrangement::Handshake;
use std::alloc::{AllocError, Global};
use tables::Tree;
use tokens::state::State as StoreState;

// The memory of a search tree: a place for each state, and two links beside one for the root.
// Tables allocate nothing, so each program makes the memory that it lends.
#[derive(Drop)]
struct Memory<S> {
    entries: Vec<S>,
    links: Vec<u32>,
}

impl<S: Copy> Memory<S> {
    fn new(heap: Global, blank: S, places: u16) -> Result<Memory<S>, AllocError>
        ensures { IfOk result (λ m. (length m.entries.items ≡ places) × (length m.links.items ≡ places * 2 + 1)) }
    {
        let places = usize::from(places);
        Ok(Memory {
            entries: vec![in heap; blank; places]?,
            links: vec![in heap; 0u32; places * 2 + 1]?,
        })
    }
}

/// Judges a finding in two search trees, both empty: one for the states of handshakes, and one for those of token stores,
/// each with so many places.
pub fn judge_in_trees(
    heap: Global,
    scene_places: u16,
    store_places: u16,
    finding: &[u8],
) -> Result<Result<Verdict, FindingFault>, AllocError>
    ensures { IfOk result (JudgesInEmptyTables finding.now scene_places store_places) }
{
    let arrangement = Handshake::SMALLEST;
    let scene = Protocol { arrangement }.start();
    let store = StoreState::START;
    let mut one = Memory::new(heap, scene, scene_places)?;
    let mut two = Memory::new(heap, store, store_places)?;
    let mut scenes = Tree::new(one.entries.as_mut_slice(), one.links.as_mut_slice());
    let mut stores = Tree::new(two.entries.as_mut_slice(), two.links.as_mut_slice());
    Ok(judge(finding, &mut scenes, &mut stores))
}

#[cfg(test)]
mod tests {
    use super::judge_in_trees;
    use std::test::Fail;

    // The finding of the docket 7: a frame, the sheet, and the labels 0, 1, 1.
    // The program of cases has the same finding: a test can't import a program.
    #[test]
    fn a_true_finding_is_accepted(rt: HostRuntime) -> Result<(), Fail> {
        let finding =
            b"\x01\x01\0\x14\0\0\0\x03\0\0\0\x18\0\0\01\0\0\0I\0\0\0\x06docket 7\ntokens\nagent +a -b\nagent -a +c\nbreach c\n\0\0\0\x01\0\x01";
        match judge_in_trees(rt.alloc(), 0, 8, finding)? {
            Ok(verdict) => {
                assert!(rt; verdict.number() == 7);
                Ok(())
            }
            Err(_) => Err(Fail::new("the finding was refused")),
        }
    }
}
