// How far a recorded run goes back for what an edit touches.
ghost use Rattle.std.specs.Prelude.{◌≡◌, ℕ, IsTrue, IsFalse};
ghost use Rattle.gw_meaning.specs.Listing.{Listing};
ghost use Rattle.gw_record.specs.Tape.{Records};
ghost use Rattle.gw_touch.specs.Touching.{touched_in};
ghost use Rattle.gw_touch.specs.Touched.{touched_step, IsKeptOf, IsBefore};

use crate::touch::Touch;
use crate::touched_step::touched;
use gw_record::Recorded;

/// Goes back to the last kept moment at or before the first step that read something touched in the replication with
/// this number, and no further. Where that step comes before the run's start, it answers `false` and changes nothing.
/// It takes no memory.
pub fn go_back(run: &mut Recorded, touch: &Touch, replication: u64) -> bool
    ensures records { (t : Listing) (seed : ℕ) → Records t seed run.old → Records t seed run.new }
    ensures kept { IsTrue result → (t : Listing) (seed : ℕ) → Records t seed run.old →
        IsKeptOf t seed run.old (touched_step (touched_in touch.now replication) t seed run.old) run.new.moment }
    ensures every { run.new.every ≡ run.old.every }
    ensures start { run.new.start ≡ run.old.start }
    ensures same { IsFalse result → run.new ≡ run.old }
    ensures before { IsFalse result → (t : Listing) (seed : ℕ) → Records t seed run.old →
        IsBefore run.old.start (touched_step (touched_in touch.now replication) t seed run.old) }
    ensures zero { run.old.start ≡ 0 → IsTrue result }
{
    if let Some(step) = touched(run, touch, replication) {
        if step < run.start() {
            return false;
        }
        run.cut(step);
    }
    true
}
