// What an edit is answered.
ghost use Rattle.std.specs.Prelude.{◌≡◌, ◌++◌, ◌+◌, ◌<◌, ◌≤◌, IfOk, OnOk, OnErr, vec_len, vec_capacity};
ghost use Rattle.gw_script.specs.Changes.{Edits, accepted, refusal_of, detail_of};

use gw_desk::Keeper;
use gw_edit::EditFault;
use gw_meaning::Edit;
use gw_nums::put_decimal;
use std::alloc::{AllocError, Global};

// The room that an answer takes at most.
const ROOM: usize = 73;

/// Edits the version, and returns what that is answered. The room for the answer comes first: where it is refused,
/// nothing is done.
pub fn edit<D: Keeper>(alloc: Global, keeper: &mut D, edit: Edit) -> Result<Vec<u8>, AllocError>
    ensures ok { IfOk result (λ v. Edits D.does keeper.old edit v.items keeper.new) }
    ensures err { OnErr result (keeper.new ≡ keeper.old) }
{
    let mut text = Vec::with_capacity(alloc, ROOM)?;
    let told = match keeper.edit(alloc, edit) {
        Ok(edits) => put_accepted(&mut text, edits),
        Err(fault) => put_refused(&mut text, fault),
    };
    match told {
        Ok(()) => Ok(text),
        Err(_) => unreachable!(),
    }
}

fn put_accepted(text: &mut Vec<u8>, edits: u64) -> Result<(), AllocError>
    ensures ok { OnOk result (text.new.items ≡ text.old.items ++ accepted edits) }
    ensures full { OnErr result (vec_capacity text.old < vec_len text.old + 24) }
{
    text.extend_from_slice(b"ok ")?;
    put_decimal(text, edits)?;
    text.extend_from_slice(b"\n")
}

fn put_refused(text: &mut Vec<u8>, fault: EditFault) -> Result<(), AllocError>
    ensures ok { OnOk result (text.new.items ≡ text.old.items ++ refusal_of fault) }
    ensures full { OnErr result (vec_capacity text.old < vec_len text.old + 73) }
{
    text.extend_from_slice(b"refused E")?;
    put_decimal(text, u64::from(fault.number()))?;
    put_detail(text, fault)?;
    text.extend_from_slice(b"\n")
}

fn put_detail(text: &mut Vec<u8>, fault: EditFault) -> Result<(), AllocError>
    ensures ok { OnOk result (text.new.items ≡ text.old.items ++ detail_of fault) }
    ensures full { OnErr result (vec_capacity text.old < vec_len text.old + 43) }
    ensures len { OnOk result (vec_len text.new ≤ vec_len text.old + 43) }
    ensures capacity { vec_capacity text.old ≤ vec_capacity text.new }
{
    match fault {
        EditFault::BadStatement(fault) => {
            text.extend_from_slice(b" ")?;
            fault.put_code(text)
        }
        EditFault::BadModel(fault) => {
            text.extend_from_slice(b" M")?;
            put_decimal(text, u64::from(fault.number()))
        }
        EditFault::NoSuchPlace
        | EditFault::NoSuchReplication
        | EditFault::ReplicationTwice
        | EditFault::NoSuchStorage
        | EditFault::Memory
        | EditFault::HistoryFull => Ok(()),
    }
}
