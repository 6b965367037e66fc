// What later edits leave of a leg's run.
ghost use Rattle.std.specs.Prelude.{IfOk};
ghost use Rattle.gw_desk.specs.Surviving.{Passes, Survives};

use gw_edit::{apply, rebase, touch_of};
use gw_meaning::Edit;
use gw_model::Version;
use gw_record::Recorded;
use std::alloc::{AllocError, Global};

// Brings the run of a replication through an edit that its version accepts, and the version with it; says whether it
// lives. Where it dies, the version stays.
fn pass(
    alloc: Global,
    version: &mut Version,
    edit: &Edit,
    rep: u64,
    run: &mut Recorded,
) -> Result<bool, AllocError>
    ensures { IfOk result (Passes version.old edit.now rep run.old version.new run.new) }
{
    let new = match apply(alloc, version, edit) {
        Ok(new) => new,
        Err(_) => return Err(AllocError),
    };
    if new.seed(rep).is_none() {
        return Ok(false);
    }
    let touch = touch_of(version, edit, &new)?;
    if !rebase(run, version, &touch, rep) {
        return Ok(false);
    }
    *version = new;
    Ok(true)
}

// Brings it through later edits.
pub(crate) fn survives(
    alloc: Global,
    version: &mut Version,
    later: &[Edit],
    rep: u64,
    run: &mut Recorded,
) -> Result<bool, AllocError>
    ensures { IfOk result (Survives version.old later.now rep run.old version.new run.new) }
{
    for edit in later {
        if !pass(alloc, version, edit, rep, run)? {
            return Ok(false);
        }
    }
    Ok(true)
}
