ghost use Rattle.std.specs.Prelude.{◌≡◌, ◌-◌, IfOk};
ghost use Rattle.gw_desk.specs.Legs.{Works};
ghost use Rattle.gw_record.specs.Extending.{Extends};

use crate::pass::RowName;
use std::alloc::{AllocError, Global};
use std::marker::{Model, PhantomData};

/// A leg of a bench. By its type it is of the bench's opening version, so that a post need not compare it.
#[derive(Drop)]
pub struct Leg<N: RowName> {
    leg: gw_desk::Leg,
    of: PhantomData<N>,
}

impl<N: RowName> Model for Leg<N> {
    ghost use Rattle.std.specs.Prelude.{◌≡◌};
    ghost use Rattle.gw_desk.specs.Legs.{Leg};

    ghost Value = { Leg };

    ghost view = { λ l. l.leg };

    ghost invariant = { λ l. l.leg.opening ≡ N.opening };
}

impl<N: RowName> Leg<N> {
    // A leg of a desk with the name's opening version.
    pub(crate) fn new(leg: gw_desk::Leg) -> Leg<N>
        requires { leg.opening ≡ N.opening }
        ensures { result ≡ leg }
    {
        Leg {
            leg,
            of: PhantomData,
        }
    }

    pub(crate) fn into_leg(self) -> gw_desk::Leg
        ensures value { result ≡ self }
        ensures opening { result.opening ≡ N.opening }
    {
        self.leg
    }

    /// Makes `steps` more steps, or those up to the step limit or to the run's end, and says how many they are. Where
    /// memory is refused, the steps made stay.
    pub fn work(&mut self, alloc: Global, steps: u64) -> Result<u64, AllocError>
        ensures works { Works steps (self.new.run.moment - self.old.run.moment) self.old self.new }
        ensures done { IfOk result (λ made.
            Extends self.old.version self.old.seed steps made self.old.run self.new.run) }
    {
        self.leg.work(alloc, steps)
    }
}
