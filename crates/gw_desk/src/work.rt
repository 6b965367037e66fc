// The line `work`: one worker takes a leg, works it and posts it.
ghost use Rattle.std.specs.Prelude.{◌≡◌, OnErr, OnOk};
ghost use Rattle.gw_desk.specs.Book.{IsBook};
ghost use Rattle.gw_desk.specs.Working.{IsWorked};

use crate::desk::Desk;
use std::alloc::{AllocError, Global};

impl Desk {
    // Takes a leg of a replication, makes up to so many steps of it and posts it; nothing, where there is none to take.
    // Where memory is refused, the leg is given up and the desk is as it was.
    pub(crate) fn work_on(&mut self, alloc: Global, rep: u64, steps: u64) -> Result<(), AllocError>
        ensures worked { OnOk result (IsWorked self.old rep steps self.new) }
        ensures err { OnErr result (self.new ≡ self.old) }
        ensures desk { IsBook self.new }
    {
        self.lemma_is_book();
        let Some(mut leg) = self.take(alloc, rep)? else {
            return Ok(());
        };
        match leg.work(alloc, steps) {
            Ok(_) => {
                self.post(alloc, leg)?;
                Ok(())
            }
            Err(refused) => {
                drop(leg);
                Err(refused)
            }
        }
    }
}
