ghost use Rattle.std.specs.Prelude.{◌≡◌, ◌++◌, OnOk};
ghost use Rattle.gw_report.specs.Report.{outcome_text, field_text, title_text};

use gw_meaning::Outcome;
use gw_nums::put_decimal;
use std::alloc::AllocError;

/// Appends the first line: the replication, its seed, the START, and how that stands.
pub(crate) fn put_title(
    out: &mut Vec<u8>,
    rep: u64,
    seed: u64,
    k: u64,
    outcome: Outcome,
) -> Result<(), AllocError>
    ensures { OnOk result (out.new.items ≡ out.old.items ++ title_text rep seed k outcome) }
{
    put_field(out, b"REPLICATION ", rep)?;
    put_field(out, b" SEED ", seed)?;
    put_field(out, b" START ", k)?;
    out.push(b' ')?;
    put_outcome(out, outcome)?;
    out.push(b'\n')?;
    Ok(())
}

// A word and a number.
#[tactic(auto, unfolding(crate::specs::Report::field_text))]
fn put_field(out: &mut Vec<u8>, word: &[u8], number: u64) -> Result<(), AllocError>
    ensures { OnOk result (out.new.items ≡ out.old.items ++ field_text word.now number) }
{
    out.extend_from_slice(word)?;
    put_decimal(out, number)
}

// How the run of a START stands.
#[tactic(auto, unfolding(crate::specs::Report::outcome_text))]
fn put_outcome(out: &mut Vec<u8>, outcome: Outcome) -> Result<(), AllocError>
    ensures { OnOk result (out.new.items ≡ out.old.items ++ outcome_text outcome) }
{
    match outcome {
        Outcome::Complete => out.extend_from_slice(b"COMPLETE"),
        Outcome::Horizon => out.extend_from_slice(b"HORIZON"),
        Outcome::Dry => out.extend_from_slice(b"DRY"),
        Outcome::Error(stop) => {
            out.extend_from_slice(b"ERROR X")?;
            put_decimal(out, stop.number() as u64)
        }
    }
}
