ghost use Rattle.std.specs.Prelude.{◌≡◌};
ghost use Rattle.std.specs.List.{list_any};
ghost use Rattle.gw_meaning.specs.Listing.{seed_in};
ghost use Rattle.gw_model.specs.Faults.{has_bad_replication, is_bad_replication, has_number_twice, has_number};

use crate::limits::{LAST_REPLICATION, LAST_SEED};
use gw_meaning::Replication;

/// Whether a seed or a number is out of range, or a number is given twice.
pub fn has_bad_replication(replications: &[Replication]) -> bool
    ensures { result ≡ has_bad_replication replications.now }
{
    has_bad_value(replications) || has_number_twice(replications)
}

/// The seed of the replication with this number.
pub fn seed_of(replications: &[Replication], number: u64) -> Option<u64>
    ensures { result ≡ seed_in replications.now number }
{
    for replication in replications {
        if replication.number == number {
            return Some(replication.seed);
        }
    }
    None
}

fn has_bad_value(replications: &[Replication]) -> bool
    ensures { result ≡ list_any is_bad_replication replications.now }
{
    replications.iter().any(|r| is_bad_replication(r))
}

fn is_bad_replication(replication: &Replication) -> bool
    ensures { result ≡ is_bad_replication replication.now }
{
    replication.seed < 1
        || LAST_SEED < replication.seed
        || replication.number < 1
        || LAST_REPLICATION < replication.number
}

fn has_number_twice(replications: &[Replication]) -> bool
    ensures { result ≡ has_number_twice replications.now }
{
    let mut rest = replications;
    while let [first, others @ ..] = rest {
        if has_number(first.number, others) {
            return true;
        }
        rest = others;
    }
    false
}

fn has_number(number: u64, replications: &[Replication]) -> bool
    ensures { result ≡ has_number number replications.now }
{
    replications.iter().any(|r| r.number == number)
}
