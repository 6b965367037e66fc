ghost use Rattle.std.specs.Prelude.{◌≡◌};
ghost use Rattle.gw_model.specs.Faults.{is_too_long, is_bad_horizon};

use gw_meaning::{Numbered, Replication};
use gw_nums::LAST_CLOCK;

/// The most statements of a version.
pub(crate) const MOST_STATEMENTS: usize = 2_000;

/// The most replications of a version.
pub(crate) const MOST_REPLICATIONS: usize = 32;

/// The greatest seed; the least is 1.
pub(crate) const LAST_SEED: u64 = 2_147_483_646;

/// The greatest number of a replication; the least is 1.
pub(crate) const LAST_REPLICATION: u64 = 1_000_000_000;

/// The greatest step limit; the least is 1.
pub(crate) const LAST_LIMIT: u64 = 1_000_000;

/// Whether there are more statements or replications than a version may have.
pub fn is_too_long(lines: &[Numbered], replications: &[Replication]) -> bool
    ensures { result ≡ is_too_long lines.now replications.now }
{
    lines.len() > MOST_STATEMENTS || replications.len() > MOST_REPLICATIONS
}

/// Whether the horizon or the step limit is out of range.
pub fn is_bad_horizon(horizon: u64, limit: u64) -> bool
    ensures { result ≡ is_bad_horizon horizon limit }
{
    horizon < 1 || LAST_CLOCK < horizon || limit < 1 || LAST_LIMIT < limit
}
