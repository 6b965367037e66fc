// The grants of a LEAVE: who of a delay chain is let in, and with how many units.
ghost use Rattle.std.specs.Prelude.{◌≡◌, [], option_copied};
ghost use Rattle.gw_chains.specs.Chains.{items_of};
ghost use Rattle.gw_meaning.specs.Records.{capped};
ghost use Rattle.gw_meaning.specs.Step.{beside, grant_of, in_use, grants_prog, all_granted};
ghost use Rattle.gw_asking.specs.Deciding.{Decides};

use gw_asking::{Notes, Run, ask_fits};
use gw_chains::PriorityChain;
use gw_expr::{Halt, Row};
use gw_names::Name;

// So many units beside those in use, 2^64 - 1 at most.
#[inline(always)]
pub(crate) fn beside(units: u64, content: u64) -> u64
    ensures { result ≡ beside units content }
{
    units.saturating_add(content)
}

// Each of a delay chain, where there is one, is let in from the front where its units fit beside those that are in use by
// then.
#[inline(always)]
pub(crate) fn grants_of(
    run: Run,
    notes: &mut Notes,
    name: &Name,
    chain: Option<&PriorityChain>,
    content: u64,
) -> Result<Row<Option<u64>>, Halt>
    ensures { Decides run.entry.version.now run.entry.seed
        (grants_prog name.now content [] (items_of (option_copied chain.entry))) result notes.old notes.new }
{
    match chain {
        Some(chain) => grants_of_chain(run, notes, name, chain, content),
        None => Ok(Row::from_vec(Vec::new(run.alloc))),
    }
}

#[inline(always)]
fn grants_of_chain(
    run: Run,
    notes: &mut Notes,
    name: &Name,
    chain: &PriorityChain,
    mut content: u64,
) -> Result<Row<Option<u64>>, Halt>
    ensures { Decides run.entry.version.now run.entry.seed
        (grants_prog name.now content [] chain.now.items) result notes.old notes.new }
{
    let mut grants = Vec::new(run.alloc);
    for i in 0..chain.len() {
        let Some(x) = chain.get(i) else {
            unreachable!()
        };
        let asked = u64::from(x.asked);
        let fits = ask_fits(run.version, notes, name, beside(asked, content))?;
        grants.push(grant_of(asked, fits))?;
        content = in_use(content, asked, fits);
    }
    Ok(Row::from_vec(grants))
}

// The units in use after one who is let in where its units fit.
#[inline(always)]
fn in_use(content: u64, units: u64, fits: bool) -> u64
    ensures { result ≡ in_use content units fits }
{
    if fits {
        beside(units, content)
    } else {
        content
    }
}

// The units with which one is let in, where they fit.
#[inline(always)]
fn grant_of(units: u64, fits: bool) -> Option<u64>
    ensures { result ≡ grant_of units fits }
{
    if fits { Some(units) } else { None }
}

// The units of those who are let in, 2^64 - 1 at most.
#[inline(always)]
pub(crate) fn all_granted(grants: &[Option<u64>]) -> u64
    ensures { result ≡ capped (all_granted grants.now) }
{
    let mut sum: u64 = 0;
    for grant in grants {
        if let Some(units) = grant {
            sum = sum.saturating_add(*units);
        }
    }
    sum
}
