// States that are kept on the way, in the order of their moments.
ghost use Rattle.std.specs.Prelude.{◌≤◌, length, IfSome, IfNone};
ghost use Rattle.gw_record.specs.Parting.{AreInOrder, AreUntil, AreMoments, AreBefore};
ghost use Rattle.gw_record.specs.Tape.{IsThere, IsStateIn};

use gw_state::State;

/// A state of a run, and how many steps from zero lead to it.
#[derive(Drop)]
pub struct Kept {
    pub moment: u64,
    pub state: State,
}

// How many of these lie at or before a moment.
pub fn count_until(kept: &[Kept], moment: u64) -> usize
    ensures bound { result ≤ length kept.now }
    ensures parts { AreInOrder kept.now → AreUntil kept.now moment result }
{
    kept.partition_point(|e| e.moment <= moment)
}

// How many of these moments lie before one.
pub(crate) fn count_before(moments: &[u64], moment: u64) -> usize
    ensures bound { result ≤ length moments.now }
    ensures parts { AreMoments moments.now → AreBefore moments.now moment result }
{
    moments.partition_point(|m| *m < moment)
}

// The state that is kept of a moment.
pub(crate) fn state_in(kept: &[Kept], moment: u64) -> Option<&State>
    ensures found { IfSome result (λ s. IsStateIn kept.now moment s.now) }
    ensures none { IfNone result (AreInOrder kept.now → IsThere kept.now moment → ⊥) }
{
    let count = count_until(kept, moment);
    if count == 0 {
        return None;
    }
    let last = &kept[count - 1];
    if last.moment == moment {
        Some(&last.state)
    } else {
        None
    }
}
