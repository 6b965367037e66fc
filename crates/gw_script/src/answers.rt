// The bytes of what a query is answered.
ghost use Rattle.std.specs.Prelude.{◌≡◌, ◌++◌, codes, decimal, IfOk, OnOk};
ghost use Rattle.gw_script.specs.Answers.{bytes_of, report_bytes, place_of};

use gw_desk::{Answer, Report};
use gw_nums::put_decimal;
use std::alloc::{AllocError, Global};

// How many bytes the heading line of a report has at most.
const HEADING: usize = 91;

/// The bytes of an answer.
pub(crate) fn answer_bytes(alloc: Global, answer: &Answer) -> Result<Vec<u8>, AllocError>
    ensures { IfOk result (λ v. v.items ≡ bytes_of answer.now) }
{
    let room = match answer {
        Answer::Ready(report) => report.text.as_slice().len() + HEADING,
        _ => 0,
    };
    let mut text = Vec::with_capacity(alloc, room)?;
    put_answer(&mut text, answer)?;
    Ok(text)
}

/// Appends the bytes of an answer: a report after its heading line, or one line.
pub(crate) fn put_answer(text: &mut Vec<u8>, answer: &Answer) -> Result<(), AllocError>
    ensures { OnOk result (text.new.items ≡ text.old.items ++ bytes_of answer.now) }
{
    match answer {
        Answer::Ready(report) => put_report(text, report),
        Answer::Unfinished { recorded } => put_unfinished(text, *recorded),
        Answer::NoStart => text.extend_from_slice(b"nostart\n"),
        Answer::TooLong => text.extend_from_slice(b"toolong\n"),
        Answer::NoReplication => text.extend_from_slice(b"noreplication\n"),
        Answer::Memory => text.extend_from_slice(b"memory\n"),
    }
}

fn put_report(text: &mut Vec<u8>, report: &Report) -> Result<(), AllocError>
    ensures { OnOk result (text.new.items ≡ text.old.items ++ report_bytes report.now) }
{
    let bytes = report.text.as_slice();
    put_place(text, report)?;
    text.extend_from_slice(b" ")?;
    put_decimal(text, bytes.len() as u64)?;
    text.extend_from_slice(b"\n")?;
    text.extend_from_slice(bytes)
}

// The heading line of a report up to its length.
#[tactic(auto, unfolding(crate::specs::Answers::place_of))]
fn put_place(text: &mut Vec<u8>, report: &Report) -> Result<(), AllocError>
    ensures { OnOk result (text.new.items ≡ text.old.items ++ place_of report.now) }
{
    text.extend_from_slice(b"report ")?;
    put_decimal(text, report.edits)?;
    text.extend_from_slice(b" ")?;
    put_decimal(text, report.replication)?;
    text.extend_from_slice(b" ")?;
    put_decimal(text, report.start)
}

fn put_unfinished(text: &mut Vec<u8>, recorded: u64) -> Result<(), AllocError>
    ensures { OnOk result (text.new.items ≡ text.old.items ++ (codes "unfinished " ++ decimal recorded ++ codes "\n")) }
{
    text.extend_from_slice(b"unfinished ")?;
    put_decimal(text, recorded)?;
    text.extend_from_slice(b"\n")
}

/// The line that says how many answers or lines come after it.
pub fn heading(alloc: Global, word: &[u8], count: usize) -> Result<Vec<u8>, AllocError>
    ensures { IfOk result (λ v. v.items ≡ word.now ++ decimal count ++ codes "\n") }
{
    let mut text = Vec::from_slice(alloc, word)?;
    put_decimal(&mut text, count as u64)?;
    text.extend_from_slice(b"\n")?;
    Ok(text)
}
