// Steps of a replication's run that are made apart from the desk.
ghost use Rattle.std.specs.Prelude.{◌≡◌, ◌-◌, IfOk};
ghost use Rattle.gw_record.specs.Extending.{Extends};
ghost use Rattle.gw_desk.specs.Legs.{IsLeg, Works};
ghost use Rattle.gw_desk.specs.Surviving.{Leaves};

use crate::survive::survives;
use gw_meaning::Edit;
use gw_model::Version;
use gw_record::Recorded;
use gw_scan::Tally;
use std::alloc::{AllocError, Global};
use std::marker::Model;
use std::sync::Arc;

/// A part of a replication's run that is made apart from the desk: it starts where the desk's record stood when it was
/// taken, and is of the version that the desk had then, whatever is edited meanwhile.
#[derive(Drop)]
pub struct Leg {
    // The version that the desk was opened with, and the edits that were accepted on the way to the leg's own.
    pub(crate) opening: Version,
    pub(crate) edits: Arc<Vec<Edit>>,
    pub(crate) version: Version,
    pub(crate) replication: u64,
    pub(crate) seed: u64,
    pub(crate) run: Recorded,
    pub(crate) tally: Tally,
}

impl Model for Leg {
    ghost use Rattle.gw_desk.specs.Legs.{Leg, IsLeg};

    ghost Value = { Leg };

    ghost view = { λ l. record {
      opening = l.opening;
      edits = l.edits.value.items;
      version = l.version;
      replication = l.replication;
      seed = l.seed;
      run = l.run;
      made = l.tally;
    } };

    ghost invariant = { λ l. IsLeg (record {
      opening = l.opening;
      edits = l.edits.value.items;
      version = l.version;
      replication = l.replication;
      seed = l.seed;
      run = l.run;
      made = l.tally;
    }) };
}

impl Leg {
    /// The moment where it starts.
    pub fn start(&self) -> u64
        ensures { result ≡ self.now.run.start }
    {
        self.run.start()
    }

    /// The moment where it ends.
    pub fn end(&self) -> u64
        ensures { result ≡ self.now.run.moment }
    {
        self.run.tip()
    }

    /// Makes `steps` more steps, or those up to the step limit or to the run's end, and says how many they are. Where
    /// memory is refused, the steps made stay.
    pub fn work(&mut self, alloc: Global, steps: u64) -> Result<u64, AllocError>
        ensures works { Works steps (self.new.run.moment - self.old.run.moment) self.old self.new }
        ensures done { IfOk result (λ made.
            Extends self.old.version self.old.seed steps made self.old.run self.new.run) }
    {
        self.run
            .extend(alloc, &self.version, self.seed, steps, &mut self.tally)
    }

    /// How many steps were made of it.
    pub fn made(&self) -> u64
        ensures { result ≡ self.now.made }
    {
        self.tally.count()
    }

    /// A leg keeps this by its type, that its run is the record of its version's run: a law, which does nothing.
    pub(crate) fn is_leg(&self)
        ensures { IsLeg self.now }
    {
        let _ = &self.run;
    }

    // What is left of its run after these later edits; none where it dies of one of them.
    pub(crate) fn left_after(
        self,
        alloc: Global,
        later: &[Edit],
    ) -> Result<Option<Recorded>, AllocError>
        ensures { IfOk result (Leaves self later.now) }
    {
        let Leg {
            opening: _,
            edits: _,
            mut version,
            replication,
            seed: _,
            mut run,
            tally: _,
        } = self;
        match survives(alloc, &mut version, later, replication, &mut run) {
            Ok(true) => Ok(Some(run)),
            Ok(false) => {
                drop(run);
                Ok(None)
            }
            Err(refused) => {
                drop(run);
                Err(refused)
            }
        }
    }
}
