// What an edit leaves of a recorded run.
ghost use Rattle.std.specs.Prelude.{◌≡◌, ℕ, IsTrue, IsFalse};
ghost use Rattle.gw_meaning.specs.Listing.{Listing};
ghost use Rattle.gw_record.specs.Tape.{Records};
ghost use Rattle.gw_meaning.specs.declared.edit.Edit.{Edit};
ghost use Rattle.gw_touch.specs.Touching.{touching_of, touched_in};
ghost use Rattle.gw_touch.specs.Touched.{touched_step, IsBefore};
ghost use Rattle.gw_edit.specs.Rebasing.{IsRebased};

use gw_model::Version;
use gw_record::Recorded;
use gw_touch::{Touch, go_back};

/// Makes the recorded run of a replication that of the edited version, by what the edit touches: goes back to the last
/// kept moment at or before the first step that read something touched, and no further. Where that step comes before
/// the run's start, it answers `false` and changes nothing: the run is lost to the edited version. It takes no memory.
pub fn rebase(run: &mut Recorded, old: &Version, touch: &Touch, replication: u64) -> bool
    ensures rebased { IsTrue result → (e : Edit) (u : Listing) → touch.now ≡ touching_of old.now e u →
        IsRebased old.now e u replication run.old run.new }
    ensures same { IsFalse result → run.new ≡ run.old }
    ensures before { IsFalse result → (t : Listing) (seed : ℕ) → Records t seed run.old →
        IsBefore run.old.start (touched_step (touched_in touch.now replication) t seed run.old) }
    ensures zero { run.old.start ≡ 0 → IsTrue result }
{
    if !go_back(run, touch, replication) {
        return false;
    }
    // What is left asked for nothing that the two versions answer in another way.
    old.lemma_ids_are_distinct();
    run.lemma_carries();
    true
}
