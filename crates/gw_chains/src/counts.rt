ghost use Rattle.std.specs.Prelude.{◌≡◌, ◌<◌, ◌≤◌, [], map, All, IfOk, OnOk};
ghost use Rattle.gw_meaning.specs.declared.moves.Arrival.{Arrival};
ghost use Rattle.gw_meaning.specs.Machine.{count_at, raised};
ghost use Rattle.gw_meaning.specs.Changes.{left, crossed, content_behind, count_anew, made_one, stood};

use gw_meaning::{Arrival, Count, Fate, StatementId};
use gw_table::Table;
use std::alloc::{AllocError, Global};
use std::marker::Model;

const NOTHING: Count = Count {
    entries: 0,
    content: 0,
    made: 0,
};

/// What is counted at each block, in the order of first use.
#[derive(Drop)]
pub struct Counts {
    table: Table<Count>,
}

impl Model for Counts {
    ghost use Rattle.gw_table.specs.Pairs.{Pairs};
    ghost use Rattle.gw_meaning.specs.declared.transaction.Count.{Count};

    ghost Value = { Pairs Count };

    ghost view = { λ c. c.table };
}

impl Counts {
    /// Nothing is counted yet.
    pub fn new(alloc: Global) -> Counts
        ensures { result.entries ≡ [] }
    {
        Counts {
            table: Table::new(alloc),
        }
    }

    /// What is counted at a block.
    #[tactic(auto, using(crate::proofs::CountLaws::count_in_is))]
    pub fn at(&self, id: StatementId) -> Count
        ensures { result ≡ count_at self.now.entries id }
    {
        match self.table.get(id.number()) {
            Some(count) => count,
            None => NOTHING,
        }
    }

    /// Makes room for the count of a block, for good.
    pub fn reserve(&mut self, id: StatementId) -> Result<(), AllocError>
        ensures ok { OnOk result (id < self.new.limit) }
        ensures entries { self.new.entries ≡ self.old.entries }
        ensures limit { self.old.limit ≤ self.new.limit }
    {
        self.table.reserve(id.number())
    }

    /// Makes room for the counts of the GENERATEs that are to make these transactions.
    pub fn reserve_all(&mut self, arrivals: &[Arrival]) -> Result<(), AllocError>
        ensures ok { OnOk result (All (λ (a : Arrival). a.id < self.new.limit) arrivals.now) }
        ensures entries { self.new.entries ≡ self.old.entries }
    {
        for arrival in arrivals {
            self.reserve(arrival.id)?;
        }
        Ok(())
    }

    // A transaction leaves a block.
    #[tactic(auto, using(crate::proofs::CountLaws::count_in_is, crate::proofs::CountLaws::with_count_is))]
    #[inline(always)]
    fn leave(&mut self, id: StatementId)
        ensures entries { self.new.entries ≡ left self.old.entries id }
        ensures limit { self.new.limit ≡ self.old.limit }
    {
        if let Some(count) = self.table.get(id.number()) {
            let count = Count {
                content: count.content.saturating_sub(1),
                ..count
            };
            self.table.set(id.number(), count);
        }
    }

    /// A transaction leaves a block and enters another, in which it stays or where it is destroyed.
    #[tactic(auto, using(crate::proofs::CountLaws::count_in_is, crate::proofs::CountLaws::with_count_is))]
    #[inline(always)]
    pub fn cross(&mut self, from: StatementId, to: StatementId, fate: &Fate)
        requires { to < self.old.limit }
        ensures entries { self.new.entries ≡ crossed fate.now self.old.entries from to }
        ensures limit { self.new.limit ≡ self.old.limit }
    {
        self.leave(from);
        // Apart, so that a count that is there is found once and changed where it stands.
        match self.table.get(to.number()) {
            Some(count) => self.table.set(to.number(), entered(count, fate)),
            None => self.table.set(to.number(), entered(NOTHING, fate)),
        }
    }

    /// One more transaction stands in a block, which it did not enter.
    #[tactic(auto, using(crate::proofs::CountLaws::with_count_is))]
    pub fn stand(&mut self, id: StatementId)
        requires { id < self.old.limit }
        ensures entries { self.new.entries ≡ stood self.old.entries id }
        ensures limit { self.new.limit ≡ self.old.limit }
    {
        let there = self.at(id);
        let count = Count {
            content: there.content.saturating_add(1),
            ..there
        };
        self.table.set(id.number(), count);
    }

    /// A GENERATE made one more.
    #[tactic(auto, using(crate::proofs::CountLaws::with_count_is))]
    #[inline(always)]
    pub fn count_made(&mut self, id: StatementId)
        requires { id < self.old.limit }
        ensures entries { self.new.entries ≡ made_one self.old.entries id }
        ensures limit { self.new.limit ≡ self.old.limit }
    {
        let count = self.at(id);
        let count = Count {
            made: count.made.saturating_add(1),
            ..count
        };
        self.table.set(id.number(), count);
    }

    /// No entry is counted any more, as after a RESET. Who stands in a block stays there.
    pub fn count_anew(&mut self)
        ensures { self.new.entries ≡ map (λ c. (c.0, count_anew c.1)) self.old.entries }
    {
        for place in 0..self.table.len() {
            if let Some((id, count)) = self.table.pair(place) {
                self.table.set(
                    id,
                    Count {
                        entries: 0,
                        ..count
                    },
                );
            }
        }
    }

    /// A copy.
    pub fn copy(&self) -> Result<Counts, AllocError>
        ensures { IfOk result (λ c. c.entries ≡ self.now.entries) }
    {
        let table = self.table.copy()?;
        Ok(Counts { table })
    }
}

// What is counted at a block after the entry of a transaction.
#[inline(always)]
fn entered(count: Count, fate: &Fate) -> Count
    ensures { result ≡ record count {
      entries = raised count.entries;
      content = content_behind fate.now count.content;
    } }
{
    Count {
        entries: count.entries.saturating_add(1),
        content: content_behind(fate, count.content),
        ..count
    }
}

// The content of a block after the entry of a transaction.
fn content_behind(fate: &Fate, content: u64) -> u64
    ensures { result ≡ content_behind fate.now content }
{
    match fate {
        Fate::Active | Fate::Current | Fate::Delayed { .. } | Fate::Linked { .. } => {
            content.saturating_add(1)
        }
        Fate::Destroyed { .. } => content,
    }
}
