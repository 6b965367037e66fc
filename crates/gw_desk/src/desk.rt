ghost use Rattle.std.specs.Prelude.{◌≡◌, ◌≤◌, ◌↔◌, [], IfOk, IsSome, option_copied, option_map};
ghost use Rattle.gw_meaning.specs.Listing.{seed_at};
ghost use Rattle.gw_record.specs.Tape.{Tape};
ghost use Rattle.gw_desk.specs.Book.{IsBook, IsRunOf, run_in, blank_runs};

use crate::recording::{Recording, blank_runs, run_of};
use crate::texts::Texts;
use gw_meaning::Edit;
use gw_model::Version;
use gw_record::Recorded;
use gw_scan::Tally;
use std::alloc::{AllocError, Global};
use std::marker::Model;
use std::sync::Arc;

/// A version of a model kept open, with the edits that were accepted on the way to it and the recorded run of each of
/// its replications.
#[derive(Drop)]
pub struct Desk {
    // The version before the first edit.
    pub(crate) opening: Version,
    pub(crate) version: Version,
    pub(crate) every: u64,
    pub(crate) edits: Vec<Edit>,
    // The same edits, for legs, which share them; none before the first leg after an edit.
    pub(crate) front: Option<Arc<Vec<Edit>>>,
    pub(crate) runs: Vec<Recording>,
    pub(crate) tally: Tally,
    // Reports that were printed last.
    pub(crate) texts: Texts,
}

impl Model for Desk {
    ghost use Rattle.std.specs.Prelude.{◌≡◌, IfSome, length};
    ghost use Rattle.gw_desk.specs.Book.{Book, IsBook};
    ghost use Rattle.gw_desk.specs.Texts.{AreTexts};

    ghost Value = { Book };

    ghost view = { λ d. record {
      opening = d.opening;
      version = d.version;
      every = d.every;
      edits = d.edits.items;
      runs =
          d.runs.items;
      made = d.tally;
    } };

    ghost invariant = { λ d. IsBook (record {
      opening = d.opening;
      version = d.version;
      every = d.every;
      edits = d.edits.items;
      runs = d.runs.items;
      made = d.tally;
    }) × IfSome d.front (λ front. front.value.items ≡ d.edits.items) ×
        AreTexts d.version (length d.edits.items) d.texts };
}

impl Desk {
    /// The desk with this version and runs of no steps, which keep their states at the multiples of `every`, 1 to
    /// 1,000,000.
    pub fn new(alloc: Global, version: Version, every: u64) -> Result<Desk, AllocError>
        requires { 1 ≤ every }
        ensures value { IfOk result (λ d. d ≡
            record {
              opening = version;
              version = version;
              every = every;
              edits = [];
              runs = blank_runs every version.replications;
              made =
                  0;
            }) }
        ensures desk { IfOk result IsBook }
    {
        version.lemma_ids_are_distinct();
        let _well = version.lines();
        let opening = version.copy(alloc)?;
        let runs = blank_runs(alloc, version.replications(), every)?;
        let texts = Texts::new(alloc)?;
        Ok(Desk {
            opening,
            version,
            every,
            edits: Vec::new(alloc),
            front: None,
            runs,
            tally: Tally::new(),
            texts,
        })
    }

    /// The version that is open.
    pub fn version(&self) -> &Version
        ensures { result.now ≡ self.now.version }
    {
        &self.version
    }

    /// The edits that were accepted, in order, at most 4,096.
    pub fn edits(&self) -> &[Edit]
        ensures { result.now ≡ self.now.edits }
    {
        self.edits.as_slice()
    }

    /// The recorded run of a replication, of the version that is open, which starts at 0; none where there is no such
    /// replication.
    pub fn run(&self, rep: u64) -> Option<&Recorded>
        ensures value { option_copied result ≡ run_in self.now.runs rep }
        ensures run { IsRunOf self.now.version self.now.every (seed_at self.now.version rep) (option_copied result) }
    {
        run_of(self.runs.as_slice(), rep)
    }

    /// How many steps its recorded run has; none where there is no such replication.
    pub fn recorded(&self, rep: u64) -> Option<u64>
        ensures value { result ≡ option_map (λ (r : Tape). r.moment) (run_in self.now.runs rep) }
        ensures there { IsSome result ↔ IsSome (seed_at self.now.version rep) }
    {
        match self.run(rep) {
            Some(run) => Some(run.tip()),
            None => None,
        }
    }

    /// A desk keeps this by its type: a law, which does nothing.
    pub fn lemma_is_book(&self)
        ensures { IsBook self.now }
    {
        let _ = &self.runs;
    }

    /// How many steps were made.
    pub fn made(&self) -> u64
        ensures { result ≡ self.now.made }
    {
        self.tally.count()
    }
}
