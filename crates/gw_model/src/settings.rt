ghost use Rattle.std.specs.Prelude.{◌≡◌, ◌≤◌, length, IfOk, OnOk, IfErr};
ghost use Rattle.gw_model.specs.Faults.{IsFault, fault_of, label_fault_of};
ghost use Rattle.gw_model.specs.Listed.{listing_of};

use crate::fault::ModelFault;
use crate::limits::{is_bad_horizon, is_too_long};
use crate::replications::has_bad_replication;
use gw_meaning::{Numbered, Replication};
use gw_nums::Time;

/// The horizon of a version with these settings, or its first fault, in the order M5, M6, M7. Only the faults of
/// labels and of the names of definitions, M1 to M4, are left to look for.
pub(crate) fn checked_horizon(
    lines: &[Numbered],
    horizon: u64,
    replications: &[Replication],
    limit: u64,
) -> Result<Time, ModelFault>
    ensures value { IfOk result (λ time. time ≡ horizon) }
    ensures left { IfOk result
        (λ time. fault_of (listing_of lines.now time replications.now limit) ≡ label_fault_of lines.now) }
    ensures short { OnOk result (length lines.now ≤ 2000) }
    ensures fault { IfErr result (IsFault (fault_of (listing_of lines.now horizon replications.now limit))) }
{
    if is_too_long(lines, replications) {
        return Err(ModelFault::TooMany);
    }
    if has_bad_replication(replications) {
        return Err(ModelFault::BadSeed);
    }
    let Some(time) = Time::new(horizon) else {
        return Err(ModelFault::BadHorizon);
    };
    if is_bad_horizon(horizon, limit) {
        return Err(ModelFault::BadHorizon);
    }
    Ok(time)
}
