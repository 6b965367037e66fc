// On the way to the end of a START.
ghost use Rattle.std.specs.Prelude.{◌≡◌, ◌-◌, ◌≤◌, IfOk};
ghost use Rattle.gw_record.specs.Tape.{Records};
ghost use Rattle.gw_record.specs.Extending.{tallied};
ghost use Rattle.gw_record.specs.Reaching.{Reaches, AreWanted};

use crate::recorded::Recorded;
use gw_expr::End;
use gw_model::Version;
use gw_scan::{Tally, Turn, end_at};
use std::alloc::{AllocError, Global};

/// What stops a recorded run on its way to the end of a START.
#[derive(Clone, Copy)]
pub enum Reach {
    /// So many STARTs are complete.
    Complete,
    /// The run ends before.
    Ended(End),
    /// The step limit is reached, and the run goes on.
    Limit,
}

impl Recorded {
    /// Makes steps of the version's run with this seed until `k` STARTs are complete, or until the run ends or
    /// the step limit is reached, and counts them. Where memory is refused, the steps made stay.
    pub fn reach(
        &mut self,
        alloc: Global,
        version: &Version,
        seed: u64,
        k: u64,
        tally: &mut Tally,
    ) -> Result<Reach, AllocError>
        requires { Records version.now seed self.old }
        ensures records { Records version.now seed self.new }
        ensures every { self.new.every ≡ self.old.every }
        ensures start { self.new.start ≡ self.old.start }
        ensures grows { self.old.moment ≤ self.new.moment }
        ensures wanted { AreWanted version.now seed k self.old.moment self.new.moment }
        ensures tally { tally.new ≡ tallied tally.old (self.new.moment - self.old.moment) }
        ensures reached { IfOk result (Reaches version.now seed k self.new) }
    {
        for _moment in self.moment..version.limit() {
            if self.tip.complete() >= k {
                return Ok(Reach::Complete);
            }
            match self.go(alloc, version, seed, tally)? {
                Turn::Moved => (),
                Turn::Ended(end) => return Ok(Reach::Ended(end)),
            }
        }
        if self.tip.complete() >= k {
            return Ok(Reach::Complete);
        }
        match end_at(alloc, version, seed, &self.tip)? {
            Some(end) => Ok(Reach::Ended(end)),
            None => Ok(Reach::Limit),
        }
    }
}
