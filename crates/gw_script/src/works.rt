// What the line `work` is answered.
ghost use Rattle.std.specs.Prelude.{◌≡◌, ◌++◌, ◌+◌, ◌<◌, IfOk, OnOk, OnErr, Some, vec_len, vec_capacity};
ghost use Rattle.gw_script.specs.Works.{Worked, counted};

use gw_desk::Keeper;
use gw_nums::put_decimal;
use std::alloc::{AllocError, Global};

// The room that an answer takes at most.
const ROOM: usize = 26;

/// Makes up to so many steps of a replication's run, and returns what that is answered. The room for the answer comes
/// first: where it is refused, nothing is done.
pub fn work<D: Keeper>(
    alloc: Global,
    keeper: &mut D,
    rep: u64,
    steps: u64,
) -> Result<Vec<u8>, AllocError>
    ensures ok { IfOk result (λ v. Worked D.works keeper.old rep steps v.items keeper.new) }
    ensures err { OnErr result (keeper.new ≡ keeper.old) }
{
    let mut text = Vec::with_capacity(alloc, ROOM)?;
    let told = match keeper.work(alloc, rep, steps) {
        Ok(recorded) => put_counted(&mut text, recorded),
        Err(_) => text.extend_from_slice(b"memory\n"),
    };
    match told {
        Ok(()) => Ok(text),
        Err(_) => unreachable!(),
    }
}

// The recorded number, or that there is no such replication.
fn put_counted(text: &mut Vec<u8>, recorded: Option<u64>) -> Result<(), AllocError>
    ensures ok { OnOk result (text.new.items ≡ text.old.items ++ counted (Some recorded)) }
    ensures full { OnErr result (vec_capacity text.old < vec_len text.old + 26) }
{
    match recorded {
        Some(recorded) => {
            text.extend_from_slice(b"work ")?;
            put_decimal(text, recorded)?;
            text.extend_from_slice(b"\n")
        }
        None => text.extend_from_slice(b"noreplication\n"),
    }
}
