ghost use Rattle.std.specs.Prelude.{◌≡◌, ℕ};
ghost use Rattle.gw_streams.specs.Draws.{next_of, start_of, drawn_of, is_set, untouched, kept_at, stream_at, with_stream, all_set};

use crate::stream::Stream;
use std::marker::Model;

/// Seven random streams, told by their numbers, 1 to 7. A stream of another number is never kept: it stands at each
/// draw as it does at the beginning, set to its number.
#[derive(Clone, Copy)]
pub struct Streams {
    streams: [Stream; 7],
}

impl Model for Streams {
    ghost use Rattle.std.specs.Prelude.{◌≡◌, List, length};
    ghost use Rattle.gw_streams.specs.declared.stream.Stream.{Stream};

    ghost Value = { List Stream };

    ghost view = { λ s. s.streams };

    ghost invariant = { λ s. length s.streams ≡ 7 };

    ghost inverse = { λ ss. record { streams = ss } };
}

impl Streams {
    /// The streams at the beginning, each set to its number.
    pub fn new() -> Streams
        ensures value { result ≡ untouched }
        ensures each { (j : ℕ) → stream_at result j ≡ Stream.Set j }
    {
        Streams {
            streams: [
                Stream::Set(1),
                Stream::Set(2),
                Stream::Set(3),
                Stream::Set(4),
                Stream::Set(5),
                Stream::Set(6),
                Stream::Set(7),
            ],
        }
    }

    /// Whether the seed of the replication is wanted at the next draw of stream `j`.
    pub fn wants_seed(&self, j: usize) -> bool
        ensures { result ≡ is_set (stream_at self.now j) }
    {
        !matches!(self.kept(j), Some(Stream::At(_)))
    }

    /// Draws the next number of stream `j`, in a replication with this seed.
    pub fn draw(&mut self, j: usize, seed: u64) -> u32
        ensures number { result ≡ drawn_of seed (stream_at self.old j) }
        ensures streams { self.new ≡ with_stream self.old j (Stream.At result) }
    {
        let last = match self.kept(j) {
            Some(Stream::At(number)) => number,
            Some(Stream::Set(value)) => start(value as u64, seed),
            None => start(j as u64, seed),
        };
        let number = next(last);
        self.put(j, Stream::At(number));
        number
    }

    /// Sets stream `j` to a value.
    pub fn set(&mut self, j: usize, value: u32)
        ensures { self.new ≡ with_stream self.old j (Stream.Set value) }
    {
        self.put(j, Stream::Set(value));
    }

    /// Sets the streams to the values, in order. Where no value is given, a stream stays as it is.
    #[tactic(auto, using(crate::proofs::Values::some_sets, crate::proofs::Values::none_keeps))]
    pub fn set_all(&mut self, values: &[Option<u32>])
        ensures { self.new ≡ all_set self.old values.now }
    {
        for (i, value) in values.iter().enumerate() {
            if let Some(value) = value {
                self.set(i + 1, *value);
            }
        }
    }

    // Stream j, if it is kept.
    fn kept(&self, j: usize) -> Option<Stream>
        ensures { result ≡ kept_at self.now j }
    {
        let i = j.checked_sub(1)?;
        self.streams.get(i).copied()
    }

    // Puts stream j, if it is kept, at another number.
    #[tactic(auto, using(std::proofs::lemmas::List::set_past))]
    fn put(&mut self, j: usize, stream: Stream)
        ensures { self.new ≡ with_stream self.old j stream }
    {
        if let Some(i) = j.checked_sub(1)
            && i < self.streams.len()
        {
            self.streams[i] = stream;
        }
    }
}

// The number that the generator gives after another.
fn next(number: u32) -> u32
    ensures { result ≡ next_of number }
{
    (16_807 * number as u64 % 2_147_483_647) as u32
}

// The number before the first draw of a stream that is set to a value.
fn start(value: u64, seed: u64) -> u32
    ensures { result ≡ start_of value seed }
{
    let steps = (value as u128 + seed as u128).saturating_sub(2) % 2_147_483_646;
    1 + steps as u32
}
