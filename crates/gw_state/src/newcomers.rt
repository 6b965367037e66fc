// The making of transactions.
ghost use Rattle.std.specs.Prelude.{◌≡◌, ◌+◌, ◌<◌, ◌≤◌, [], length, All};
ghost use Rattle.gw_meaning.specs.declared.moves.Arrival.{Arrival};
ghost use Rattle.gw_meaning.specs.Changes.{making_of, with_making, made, all_made, all_copied};
ghost use Rattle.gw_state.specs.States.{machine_of};

use crate::parts::Parts;
use gw_meaning::{Arrival, Destination, Event, StatementId, Transaction};
use gw_nums::Time;

impl Parts {
    // A new transaction is put on the future chain.
    #[inline(never)]
    pub(crate) fn create(&mut self, arrival: Arrival)
        requires chain { 0 < self.old.future.room }
        requires counts { arrival.id < self.old.counts.limit }
        ensures made { machine_of self.new ≡
            with_making (made arrival (making_of (machine_of self.old))) (machine_of self.old) }
        ensures rest { self.new ≡ record self.old {
          next = self.new.next;
          future = self.new.future;
          counts = self.new.counts;
        } }
        ensures chain_room { self.old.future.room ≤ self.new.future.room + 1 }
        ensures limit { self.new.counts.limit ≡ self.old.counts.limit }
    {
        let transaction = Transaction {
            number: self.next,
            priority: arrival.priority,
            mark: Time::ZERO,
            current: StatementId::NONE,
            destination: Destination::to(arrival.id),
            asked: 0,
        };
        self.future.put(Event {
            time: arrival.time,
            transaction,
        });
        self.counts.count_made(arrival.id);
        self.next = self.next.saturating_add(1);
    }

    // New transactions are put on the future chain, in order.
    pub(crate) fn create_all(&mut self, arrivals: &[Arrival])
        requires chain { length arrivals.now ≤ self.old.future.room }
        requires counts { All (λ (a : Arrival). a.id < self.old.counts.limit) arrivals.now }
        ensures { machine_of self.new ≡
            with_making (all_made arrivals.now (making_of (machine_of self.old))) (machine_of self.old) }
    {
        for arrival in arrivals {
            self.create(*arrival);
        }
    }

    // So many copies of a transaction are made, with numbers from the next one on. They stand in its block and go to
    // the current chain, one by one, each on its way to this block or on from its own where none is set. Their
    // parameters stand apart.
    pub fn copy_all(&mut self, x: Transaction, count: u64, to: Destination)
        requires current { count ≤ self.old.current.room }
        requires counts { x.current < self.old.counts.limit }
        ensures copied { machine_of self.new ≡ all_copied count to x [] (machine_of self.old) }
        ensures rest { self.new ≡ record self.old {
          next = self.new.next;
          current = self.new.current;
          counts = self.new.counts;
        } }
        ensures room { self.old.current.room ≤ self.new.current.room + count }
    {
        for _copy in 0..count {
            self.current.line_up(Transaction {
                number: self.next,
                destination: to,
                ..x
            });
            self.counts.stand(x.current);
            self.next = self.next.saturating_add(1);
        }
    }
}
