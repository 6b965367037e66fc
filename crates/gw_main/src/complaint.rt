// What standard error is told, and the status that goes with it.
ghost use Rattle.std.specs.Prelude.{◌≡◌, IfOk};
ghost use Rattle.gw_main.specs.Complaints.{complaint_of, status_of, line_part, model_part, IsToldAs, Tells};

use gw_lines::FaultyLine;
use gw_model::ModelFault;
use gw_nums::put_decimal;
use gw_script::{Fault, Sink};
use std::alloc::{AllocError, Global};

/// Tells standard error of a fault, as far as it takes that, and returns the fault that was told: out of memory, where
/// there was none for the text of a faulty line.
pub(crate) fn complain<E: Sink>(alloc: Global, fault: Fault, errors: &mut E) -> Fault
    ensures told { IsToldAs fault result }
    ensures text { Tells E.wrote E.failures (complaint_of result) errors.old errors.new }
{
    match &fault {
        Fault::Line(faulty) => {
            match line_text(alloc, *faulty) {
                Ok(text) => say(errors, &text),
                Err(_) => {
                    say(errors, b"stopped: F6\n");
                    return Fault::Memory;
                }
            }
        }
        Fault::Model(model) => say(errors, model_text(*model)),
        Fault::Read => say(errors, b"stopped: F3\n"),
        Fault::Write => say(errors, b"stopped: F4\n"),
        Fault::ReadLimit => say(errors, b"stopped: F5\n"),
        Fault::Memory => say(errors, b"stopped: F6\n"),
    }
    fault
}

/// Tells standard error a line, as far as it takes that.
pub(crate) fn say<E: Sink>(errors: &mut E, text: &[u8])
    ensures { Tells E.wrote E.failures text.now errors.old errors.new }
{
    let _ = gw_io::write_all(errors, text);
}

fn line_text(alloc: Global, faulty: FaultyLine) -> Result<Vec<u8>, AllocError>
    ensures { IfOk result (λ v. v.items ≡ line_part faulty) }
{
    let mut text = Vec::from_slice(alloc, b"model refused: line ")?;
    put_decimal(&mut text, faulty.line)?;
    text.extend_from_slice(b" ")?;
    faulty.fault.put_code(&mut text)?;
    text.extend_from_slice(b"\n")?;
    Ok(text)
}

#[tactic(auto, using(std::proofs::lemmas::Fmt::decimal_digit))]
fn model_text(fault: ModelFault) -> &'static [u8]
    ensures { result.now ≡ model_part fault }
{
    match fault {
        ModelFault::TooMany => b"model refused: M5\n",
        ModelFault::BadSeed => b"model refused: M6\n",
        ModelFault::BadHorizon => b"model refused: M7\n",
        ModelFault::LabelTwice => b"model refused: M1\n",
        ModelFault::NoSuchLabel => b"model refused: M2\n",
        ModelFault::NoSuchDefinition => b"model refused: M3\n",
        ModelFault::EquNamedDefinition => b"model refused: M4\n",
        ModelFault::Memory => b"model refused: M8\n",
    }
}

/// The status of the program after a fault: 1 for a refused model, 3 for the rest.
pub(crate) fn status(fault: &Fault) -> u8
    ensures { result ≡ status_of fault.now }
{
    match fault {
        Fault::Line(_) | Fault::Model(_) => 1,
        Fault::Read | Fault::Write | Fault::ReadLimit | Fault::Memory => 3,
    }
}
