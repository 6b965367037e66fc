//! The what-if workbench for GPSS World models: a model and a script in, reports on standard output.
//!
//! What is proved:
//!
//! - The program does what the words ask for, as `clap` reads them, or refuses them for a named reason.
//! - The model comes from standard input or from the opened file. Then follows the session, over a desk, or with
//!   workers over a seat of a bench of that model that has seen nothing yet, with its status and what it writes to
//!   standard error.
//!
//! Contracts: `run`, `read_words`, `complain`, `status`, `not_begun`.
#![tactic(auto)]

mod command;
mod complaint;
mod conversation;
mod gate;
mod number;
mod run;
mod sharing;
mod words;

use gw_script::{FromRead, ReadFault, ToWrite};
use run::{not_begun, not_opened, run};
use std::env::{self, Env};
use std::fs;
use std::io::{self, BufReader};
use std::process::ExitCode;
use std::rt::Files;

fn main(rt: HostRuntime) -> ExitCode {
    let alloc = rt.alloc();
    let mut errors = ToWrite::new(rt.stderr());
    let words = match words_of(&rt) {
        Ok(words) => words,
        Err(error) => return ExitCode::from(not_begun(error.kind(), &mut errors)),
    };
    let input = match BufReader::new(alloc, rt.stdin()) {
        Ok(input) => input,
        Err(error) => return ExitCode::from(not_begun(error.kind(), &mut errors)),
    };
    let mut reader = FromRead::new(input);
    let mut writer = ToWrite::new(rt.stdout());
    let open = |path: &str| model_file(&rt, path);
    ExitCode::from(run(
        &rt,
        alloc,
        &words,
        open,
        &mut reader,
        &mut writer,
        &mut errors,
    ))
}

// The words after the program's name.
fn words_of(rt: &(impl Env + AllocGlobal)) -> io::Result<Vec<String>> {
    let mut words = Vec::new(rt.alloc());
    for word in env::args(rt)?.skip(1) {
        words.push(word)?;
    }
    Ok(words)
}

// A model's file, opened.
fn model_file<R: Files + AllocGlobal>(
    rt: &R,
    path: &str,
) -> Result<FromRead<BufReader<R::File>>, ReadFault> {
    match open_buffered(rt, path) {
        Ok(file) => Ok(FromRead::new(file)),
        Err(error) => Err(not_opened(error.kind())),
    }
}

fn open_buffered<R: Files + AllocGlobal>(rt: &R, path: &str) -> io::Result<BufReader<R::File>> {
    BufReader::new(rt.alloc(), fs::open(rt, path)?)
}
