ghost use Rattle.std.specs.Prelude.{◌≡◌, ◌≤◌, ℕ};
ghost use Rattle.gw_meaning.specs.Listing.{Listing};
ghost use Rattle.gw_meaning.specs.Reads.{first_use};
ghost use Rattle.gw_record.specs.Carrying.{Carries};
ghost use Rattle.gw_record.specs.Tape.{blank, Records};

use crate::kept::Kept;
use gw_meaning::Item;
use gw_scan::Notes;
use gw_state::State;
use std::alloc::Global;
use std::marker::Model;

/// A recorded run: the state at its tip, states kept on the way from its start, at the multiples of a spacing and at
/// START ends, and the first step that uses each item.
#[derive(Drop)]
pub struct Recorded {
    pub(crate) every: u64,
    // From this moment on states are kept.
    pub(crate) start: u64,
    pub(crate) moment: u64,
    // How many steps lead from the tip to the next multiple of the spacing: the whole spacing at a multiple.
    pub(crate) ahead: u64,
    // While fewer STARTs than these are complete, nothing is left to keep: one more than are noted, or 0 where the
    // start or a multiple of the spacing may not be kept yet.
    pub(crate) due: u64,
    pub(crate) tip: State,
    pub(crate) kept: Vec<Kept>,
    pub(crate) ends: Vec<u64>,
    // The first uses, and the streams of the tip.
    pub(crate) notes: Notes,
}

impl Model for Recorded {
    ghost use Rattle.std.specs.Prelude.{◌≡◌, ◌+◌, ◌%◌, ◌≤◌};
    ghost use Rattle.gw_record.specs.Keeping.{IsDue};
    ghost use Rattle.gw_record.specs.Tape.{Tape};

    ghost Value = { Tape };

    ghost view = { λ r. record {
      every = r.every;
      start = r.start;
      moment = r.moment;
      tip = r.tip;
      kept = r.kept.items;
      ends = r.ends.items;
      firsts = r.notes.firsts;
    } };

    ghost invariant = { λ r. ((1 ≤ r.ahead) × (r.ahead ≤ r.every)) × ((r.moment + r.ahead) % r.every ≡ 0) ×
        IsDue r.start r.every r.moment r.kept.items r.ends.items r.due × (r.notes.streams ≡ r.tip.streams) };
}

impl Recorded {
    /// The run of no steps, which starts at 0, and is to keep the states at the multiples of `every` (1 to 1,000,000).
    #[tactic(auto, using(crate::proofs::Blank::blank_firsts))]
    pub fn new(alloc: Global, every: u64) -> Recorded
        requires { 1 ≤ every }
        ensures value { result ≡ blank every }
        ensures records { (t : Listing) (seed : ℕ) → Records t seed result }
    {
        let tip = State::zero(alloc);
        let notes = Notes::new(alloc, tip.streams());
        Recorded {
            every,
            start: 0,
            moment: 0,
            ahead: every,
            due: 0,
            tip,
            kept: Vec::new(alloc),
            ends: Vec::new(alloc),
            notes,
        }
    }

    /// At the multiples of this moment it keeps states, from its start on.
    pub fn every(&self) -> u64
        ensures { result ≡ self.now.every }
    {
        self.every
    }

    /// The moment from which on it keeps states: 0, or where [`Recorded::branch`] made a branch. No other call
    /// changes it.
    pub fn start(&self) -> u64
        ensures { result ≡ self.now.start }
    {
        self.start
    }

    /// How many steps lead from zero to the tip, 0 up to the version's step limit: the tip's moment.
    pub fn tip(&self) -> u64
        ensures { result ≡ self.now.moment }
    {
        self.moment
    }

    /// The state at the tip.
    pub fn state(&self) -> &State
        ensures { result.now ≡ self.now.tip }
    {
        &self.tip
    }

    /// The first step below the tip, from 0, that used an item, if any did: that read it, or, for a time, that
    /// set the clock later.
    pub fn first_use(&self, item: &Item) -> Option<u64>
        ensures { (t : Listing) (seed : ℕ) → Records t seed self.now →
            result ≡ first_use item.now t seed self.now.moment }
    {
        self.notes.firsts().get(item)
    }

    /// The record of one version's run is, as it stands, that of another version's that answers alike all that the
    /// steps below the tip read: blocks go by their statement ids, which edits leave alone.
    pub fn lemma_carries(&self)
        ensures { Carries self.now }
    {}
}
