// The first step of a recorded run that read something that an edit touches.
ghost use Rattle.std.specs.Prelude.{◌≡◌, ◌∷◌, [], ℕ};
ghost use Rattle.gw_meaning.specs.Listing.{Listing};
ghost use Rattle.gw_meaning.specs.Reads.{first_reading};
ghost use Rattle.gw_uses.specs.Asks.{earlier};
ghost use Rattle.gw_record.specs.Tape.{Records};
ghost use Rattle.gw_touch.specs.Touching.{touched_in, given, is_probed};
ghost use Rattle.gw_touch.specs.Touched.{touched_step};

use crate::touch::{Probe, Touch, seed_probe};
use gw_record::Recorded;
use gw_uses::earlier;

/// The first recorded step, from 0, that read something that is touched in the replication with this number, if any
/// did. It takes no memory.
pub fn touched(run: &Recorded, touch: &Touch, replication: u64) -> Option<u64>
    ensures { (t : Listing) (seed : ℕ) → Records t seed run.now →
        result ≡ touched_step (touched_in touch.now replication) t seed run.now }
{
    earlier(
        first_of(run, &seed_probe(touch.reseeded, replication)),
        first_in_all(run, touch),
    )
}

// The same in every replication.
fn first_in_all(run: &Recorded, touch: &Touch) -> Option<u64>
    ensures { (t : Listing) (seed : ℕ) → Records t seed run.now →
        result ≡ touched_step touch.now.probes t seed run.now }
{
    earlier(
        first_of_probes(run, &touch.first),
        first_of_probes(run, &touch.rest),
    )
}

fn first_of_probes(run: &Recorded, probes: &[Option<Probe>]) -> Option<u64>
    ensures { (t : Listing) (seed : ℕ) → Records t seed run.now →
        result ≡ touched_step (given probes.now) t seed run.now }
{
    let mut first = None;
    for probe in probes {
        first = earlier(first, first_of(run, probe));
    }
    first
}

fn first_of(run: &Recorded, probe: &Option<Probe>) -> Option<u64>
    ensures { (t : Listing) (seed : ℕ) → Records t seed run.now →
        result ≡ touched_step (given (probe.now ∷ [])) t seed run.now }
{
    match probe {
        Some(probe) => first_probed(run, probe),
        None => None,
    }
}

fn first_probed(run: &Recorded, probe: &Probe) -> Option<u64>
    ensures { (t : Listing) (seed : ℕ) → Records t seed run.now →
        result ≡ first_reading (is_probed probe.now) t seed run.now.moment }
{
    match probe {
        Probe::One(item) => run.first_use(item),
        Probe::CommandsFrom(first) => run.first_command(*first),
        Probe::Beyond(last) => run.first_clock(*last),
        Probe::Amounts { name, from, to } => run.first_ask(name, *from, *to),
    }
}
