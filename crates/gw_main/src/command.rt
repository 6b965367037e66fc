// The program's command line.
ghost use Rattle.std.specs.Prelude.{◌≡◌, IfOk, false};
ghost use Rattle.clap.specs.Words.{app_of, rule_of};
ghost use Rattle.gw_main.specs.Words.{gpssbench, model_rule, option_rule};

use clap::{Arg, Command};
use std::alloc::{AllocError, Global};

const ABOUT: &str =
    "Runs a GPSS World model and answers the lines of a script about it, each at once, with reports.";

const VERSION: &str = "0.1.0";

const SESSION: &str =
    "A session on standard input: the model before a line `end`, and the script after it.

GENERATE 10 ; a patient every 10 ticks of the clock
ADVANCE 3   ; is seen for 3 ticks
TERMINATE 1 ; and leaves;
START 2     ; the run is complete when 2 have left
end
report 1 1
quit

The answer to `report 1 1` begins with the line `report 0 1 1 491`: no edits so far, replication 1,
START 1, and 491 bytes of text, which follow.

With the model in a file, standard input is the script alone, and `end` stands in neither:

  $ gpssbench clinic.gps --seed 1945846388 < questions.txt

The lines of a script, with r for a replication, k for a START and p for a place in `list`:

  report r k       The report of START k of replication r; steps that are missing are made
  peek r k         The same from the steps that are there, or `unfinished N`
  all k            The report of START k of each replication
  work r n         Up to n steps more of replication r are made
  list             The statements, each after its place
  insert p TEXT    The statement TEXT is inserted at place p
  delete p         The statement at place p is deleted
  change p TEXT    TEXT stands in its place, with its label or without one
  seed r s         Replication r has the seed s
  replicate r s    A replication r with the seed s is added
  drop r           Replication r is dropped
  horizon t        Runs end at tick t
  capacity NAME n  The storage NAME holds n units
  quit             The session ends, as it does at the end of the input

An edit is answered `ok E`, when E are accepted, or `refused` with why. Take seeds of seven digits
and more, far apart.

With `--workers W` all replications are simulated further while you type and while a report is made.
Each report has the same bytes as without; `peek` and `work` answer what has been reached.

The program ends with status 0 when the script was served, 1 when the model is refused, 2 when the
words after its name are, and 3 when reading, writing or memory failed. Standard error says why.
In the program's repository docs/language.md has all that a model may hold, docs/codes.md each
answer and what to do about it, docs/workers.md how many workers to take, and docs/tour.md two
examples.";

/// The command line of the program, whose words begin after the program's name.
pub fn command<'a>(alloc: Global) -> Result<Command<'a>, AllocError>
    ensures { IfOk result (λ c. app_of c ≡ gpssbench) }
{
    Command::new(alloc, "gpssbench")
        .no_binary_name(true)
        .version(VERSION)
        .about(ABOUT)
        .after_help(SESSION)
        .arg(model(alloc))?
        .arg(option(
            alloc,
            "seed",
            "S",
            "Seed of replication 1: 1 to 2147483646 [default: 1]",
        ))?
        .arg(option(
            alloc,
            "horizon",
            "T",
            "Last clock tick of a run: 1 to 1000000000000 [default: 1000000000]",
        ))?
        .arg(option(
            alloc,
            "every",
            "K",
            "Steps from one kept state of a run to the next: 1 to 1000000 [default: 1000]",
        ))?
        .arg(option(
            alloc,
            "limit",
            "L",
            "Steps that a run may take: 1 to 1000000 [default: 1000000]",
        ))?
        .arg(option(
            alloc,
            "workers",
            "W",
            "Threads that simulate beside the session: 0 to 16 [default: 0]",
        ))
}

// The word for the model.
fn model<'a>(alloc: Global) -> Arg<'a>
    ensures rule { rule_of result ≡ model_rule }
    ensures local { result.global ≡ false }
{
    Arg::new(alloc, "model").value_name("MODEL").help(
        "File with the model, or - for a model on standard input [default: -]",
    )
}

// An option with one word.
fn option<'a>(alloc: Global, name: &'a str, value: &'a str, help: &'a str) -> Arg<'a>
    ensures rule { rule_of result ≡ option_rule name.entry.now }
    ensures local { result.global ≡ false }
{
    Arg::new(alloc, name)
        .long(name)
        .value_name(value)
        .help(help)
}
