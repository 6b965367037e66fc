// What a query is answered.
ghost use Rattle.std.specs.Prelude.{◌≡◌, codes, IfOk, OnOk, OnErr};
ghost use Rattle.gw_desk.specs.declared.play.Event.TheVariants as events;
ghost use Rattle.gw_script.specs.Answers.{Queries, ReportsAll, Puts, PutsOne, MakesSome, numbers_of};

use crate::answers::{answer_bytes, heading, put_answer};
use gw_desk::Keeper;
use gw_meaning::Replication;
use std::alloc::{AllocError, Global};

/// The answer to `report rep k`. Where a growth was refused for its bytes, the steps that were made stay.
pub fn report<D: Keeper>(
    alloc: Global,
    keeper: &mut D,
    rep: u64,
    k: u64,
) -> Result<Vec<u8>, AllocError>
    ensures ok { IfOk result (λ v. Queries D.does keeper.old (events.Finish rep k) v.items keeper.new) }
    ensures err { OnErr result (Queries D.does keeper.old (events.Finish rep k) (codes "memory\n") keeper.new) }
{
    let answer = keeper.finish(alloc, rep, k);
    answer_bytes(alloc, &answer)
}

/// The answer to `peek rep k`.
pub fn peek<D: Keeper>(
    alloc: Global,
    keeper: &mut D,
    rep: u64,
    k: u64,
) -> Result<Vec<u8>, AllocError>
    ensures ok { IfOk result (λ v. Queries D.does keeper.old (events.Peek rep k) v.items keeper.new) }
    ensures err { OnErr result (Queries D.does keeper.old (events.Peek rep k) (codes "memory\n") keeper.new) }
{
    let answer = keeper.peek(alloc, rep, k);
    answer_bytes(alloc, &answer)
}

/// The answer to `all k`: a report of each replication. Where a growth was refused, the steps that were made stay.
pub(crate) fn report_all<D: Keeper>(
    alloc: Global,
    keeper: &mut D,
    k: u64,
) -> Result<Vec<u8>, AllocError>
    ensures ok { IfOk result (λ v. ReportsAll D.version D.does keeper.old k v.items keeper.new) }
    ensures err { OnErr result (ReportsAll D.version D.does keeper.old k (codes "memory\n") keeper.new) }
{
    let numbers = numbers(alloc, keeper.replications())?;
    let mut text = heading(alloc, b"all ", numbers.len())?;
    put_reports(alloc, keeper, k, &numbers, &mut text)?;
    Ok(text)
}

fn numbers(alloc: Global, replications: &[Replication]) -> Result<Vec<u64>, AllocError>
    ensures { IfOk result (λ v. v.items ≡ numbers_of replications.now) }
{
    let mut numbers = Vec::new(alloc);
    for replication in replications {
        numbers.push(replication.number)?;
    }
    Ok(numbers)
}

fn put_reports<D: Keeper>(
    alloc: Global,
    keeper: &mut D,
    k: u64,
    numbers: &[u64],
    text: &mut Vec<u8>,
) -> Result<(), AllocError>
    ensures ok { OnOk result (Puts D.does keeper.old k numbers.now text.old.items text.new.items keeper.new) }
    ensures err { OnErr result (MakesSome D.does keeper.old k numbers.now keeper.new) }
{
    for number in numbers {
        put_one(alloc, keeper, *number, k, text)?;
    }
    Ok(())
}

fn put_one<D: Keeper>(
    alloc: Global,
    keeper: &mut D,
    rep: u64,
    k: u64,
    text: &mut Vec<u8>,
) -> Result<(), AllocError>
    ensures ok { OnOk result (PutsOne D.does keeper.old rep k text.old.items text.new.items keeper.new) }
    ensures err { OnErr result (Queries D.does keeper.old (events.Finish rep k) (codes "memory\n") keeper.new) }
{
    let answer = keeper.finish(alloc, rep, k);
    put_answer(text, &answer)
}
