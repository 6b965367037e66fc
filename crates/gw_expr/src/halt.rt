// Why a run goes no further.
ghost use Rattle.std.specs.Prelude.{◌≡◌};
ghost use Rattle.gw_expr.specs.declared.halt.End.TheVariants as ends;
ghost use Rattle.gw_expr.specs.declared.halt.Halt.TheVariants as halts;

use crate::stop::Stop;
use std::alloc::{AllocError, AllocFailed};

/// Why no step follows.
#[derive(Clone, Copy, PartialEq, Eq)]
pub enum End {
    /// No command is left.
    CommandsDone,
    /// The least future time lies above the horizon.
    Horizon,
    /// There is no transaction to move.
    Dry,
    /// An attempt or a priming cannot be made.
    Error(Stop),
}

/// Why an operand has no value, or no step is made.
#[derive(Clone, Copy)]
pub enum Halt {
    /// A growth was refused.
    Memory,
    /// The run ends here.
    End(End),
}

impl Halt {
    /// The run ends here by a stop.
    pub fn stop(stop: Stop) -> Halt
        ensures { result ≡ halts.End (ends.Error stop) }
    {
        Halt::End(End::Error(stop))
    }
}

impl From<AllocError> for Halt {
    ghost use Rattle.std.specs.Prelude.{◌≡◌};
    ghost use Rattle.gw_expr.specs.declared.halt.Halt.TheVariants as halts;

    ghost from_gives = { λ _ e. e ≡ halts.Memory };

    fn from(_: AllocError) -> Halt {
        Halt::Memory
    }
}

impl<T: Drop> From<AllocFailed<T>> for Halt {
    ghost use Rattle.std.specs.Prelude.{◌≡◌};
    ghost use Rattle.gw_expr.specs.declared.halt.Halt.TheVariants as halts;

    ghost from_gives = { λ _ e. e ≡ halts.Memory };

    fn from(_: AllocFailed<T>) -> Halt {
        Halt::Memory
    }
}
