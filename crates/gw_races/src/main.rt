//! Races over a bench: in each round sixteen threads edit, ask, take, post and drop at random, and then all that they were
//! answered is compared with runs from zero. `gw_races ROUNDS` prints how many rounds went well; the status is 1 where
//! one did not.
#![tactic(auto)]

mod dice;
mod model;
mod moves;
mod replay;
mod round;
#[cfg(test)]
mod threads;

use round::Outcome;
use std::env::{self, Env};
use std::process::ExitCode;

fn main(rt: HostRuntime) -> ExitCode {
    let Some(rounds) = rounds(&rt) else {
        return ExitCode::from(2);
    };
    for number in 0..rounds {
        let told = match round::round(&rt, rt.alloc(), number) {
            Outcome::Well => continue,
            Outcome::Wrong => "an answer is not that of its version",
            Outcome::Memory => "out of memory",
        };
        let _ = println!(rt; "round {number}: {told}");
        return ExitCode::from(1);
    }
    match println!(rt; "{rounds} rounds: each answer is that of a run from zero") {
        Ok(()) => ExitCode::from(0),
        Err(_) => ExitCode::from(1),
    }
}

// The number that the program is given.
fn rounds(rt: &(impl Env + AllocGlobal)) -> Option<u64> {
    env::args(rt).ok()?.nth(1)?.parse().ok()
}
