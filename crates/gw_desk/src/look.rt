// What the recorded steps of a run tell of a START.
ghost use Rattle.std.specs.Prelude.{◌≡◌, ◌≤◌, ℕ, None, IfOk};
ghost use Rattle.gw_meaning.specs.Listing.{Listing};
ghost use Rattle.gw_record.specs.Lookups.{IsEndOf};
ghost use Rattle.gw_record.specs.Reaching.{Reaches};
ghost use Rattle.gw_record.specs.Tape.{Records};
ghost use Rattle.gw_desk.specs.Looking.{Sees, IsStopped};
ghost use Rattle.gw_desk.specs.Ending.{seen_at_end};

use gw_expr::End;
use gw_meaning::Outcome;
use gw_model::Version;
use gw_record::{Reach, Recorded};
use gw_scan::end_at;
use std::alloc::{AllocError, Global};

/// Where the report of a START is taken, as far as the recorded steps tell.
#[derive(Clone, Copy)]
pub enum Look {
    /// At this moment, with this outcome.
    Point { moment: u64, outcome: Outcome },
    /// Nowhere: the run ends earlier.
    NoStart,
    /// Nowhere up to the step limit.
    TooLong,
    /// The recorded steps do not decide.
    Open,
}

// Looks whether the recorded steps decide on START k. It makes no step.
pub fn look_at(
    alloc: Global,
    version: &Version,
    seed: u64,
    run: &Recorded,
    k: u64,
) -> Result<Look, AllocError>
    requires records { Records version.now seed run.now }
    requires start { run.now.start ≡ 0 }
    requires some { 1 ≤ k }
    ensures { IfOk result (Sees version.now seed k run.now) }
{
    match run.start_end(k) {
        Some(moment) => Ok(Look::Point {
            moment,
            outcome: Outcome::Complete,
        }),
        None => look_at_tip(alloc, version, seed, run, k),
    }
}

// The same where k STARTs are complete at no recorded moment: does the run end at the tip?
fn look_at_tip(
    alloc: Global,
    version: &Version,
    seed: u64,
    run: &Recorded,
    k: u64,
) -> Result<Look, AllocError>
    requires records { Records version.now seed run.now }
    requires some { 1 ≤ k }
    requires none { IsEndOf version.now seed run.now k None }
    ensures { IfOk result (Sees version.now seed k run.now) }
{
    match end_at(alloc, version, seed, run.state())? {
        Some(end) => Ok(seen_at_end(run.tip(), run.state().complete(), k, end)),
        None => {
            if run.tip() < version.limit() {
                Ok(Look::Open)
            } else {
                Ok(Look::TooLong)
            }
        }
    }
}

// The same by what stopped the steps on the way to the end of START k: the recorded steps decide.
pub(crate) fn look_after(run: &Recorded, k: u64, reach: Reach) -> Look
    requires start { run.now.start ≡ 0 }
    requires some { 1 ≤ k }
    requires stopped { IsStopped k run.now reach }
    ensures { (t : Listing) (seed : ℕ) → Records t seed run.now → Reaches t seed k run.now reach →
        Sees t seed k run.now result }
{
    match run.start_end(k) {
        Some(moment) => Look::Point {
            moment,
            outcome: Outcome::Complete,
        },
        None => match reach {
            Reach::Complete => unreachable!(),
            Reach::Ended(end) => seen_at_end(run.tip(), run.state().complete(), k, end),
            Reach::Limit => Look::TooLong,
        },
    }
}

// The run ends at a moment with so many STARTs complete.
fn seen_at_end(moment: u64, complete: u64, k: u64, end: End) -> Look
    requires { 1 ≤ k }
    ensures { result ≡ seen_at_end moment complete k end }
{
    if complete != k - 1 {
        return Look::NoStart;
    }
    match end {
        End::CommandsDone => Look::NoStart,
        End::Horizon => Look::Point {
            moment,
            outcome: Outcome::Horizon,
        },
        End::Dry => Look::Point {
            moment,
            outcome: Outcome::Dry,
        },
        End::Error(stop) => Look::Point {
            moment,
            outcome: Outcome::Error(stop),
        },
    }
}
