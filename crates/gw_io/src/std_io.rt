ghost use Rattle.std.specs.Prelude.{◌≡◌, OnOk, OnErr};
ghost use Rattle.std.specs.Io.KnownBytes.{Keeps};
ghost use Rattle.gw_io.specs.Failures.{one_more};

use crate::sink::Sink;
use crate::source::{Failed, Source};
use std::io::{Read, Write};

/// A source of the bytes of an [`io::Read`](std::io::Read).
///
/// It asks the reader for one byte at a time, so give it a [`BufReader`](std::io::BufReader) where a call of
/// the reader costs much. Each error of the reader is a failure, an interrupted call too.
#[derive(Drop)]
pub struct FromRead<R> {
    /// The reader.
    pub reader: R,
    /// How many calls failed, up to `u64::MAX`.
    pub failures: u64,
}

impl<R: Read> FromRead<R> {
    /// A source of the reader's bytes, which has not failed yet.
    pub fn new(reader: R) -> FromRead<R>
        ensures reader { result.reader ≡ reader }
        ensures failures { result.failures ≡ 0 }
    {
        FromRead {
            reader,
            failures: 0,
        }
    }
}

impl<R: Read> Source for FromRead<R> {
    ghost use Rattle.std.specs.Io.KnownBytes.{Consumes, IsAtEnd};
    ghost use Rattle.gw_io.specs.StdIo.{Consumes-nothing, Consumes-onward};

    ghost took = { λ a bytes b. Consumes (R.remaining a.reader) (R.remaining b.reader) bytes };

    ghost ended = { λ a. IsAtEnd (R.remaining a.reader) };

    ghost failures = { λ a. a.failures };

    ghost nothing = { λ a. Consumes-nothing (R.remaining a.reader) };

    ghost onward = { λ a b c x y.
        Consumes-onward (R.remaining a.reader) (R.remaining b.reader) (R.remaining c.reader) x y };

    fn read(&mut self) -> Result<Option<u8>, Failed> {
        let mut byte = [0u8];
        match self.reader.read(&mut byte) {
            Ok(0) => Ok(None),
            Ok(_) => Ok(Some(byte[0])),
            Err(_) => Err(Failed::count(&mut self.failures)),
        }
    }
}

/// A sink that passes each slice on to an [`io::Write`](std::io::Write).
///
/// A write does not flush the writer: give it one without a buffer, or call [`ToWrite::flush`] after each
/// answer. Each error of the writer is a failure, an interrupted call too, and so is a write that takes none
/// of some bytes.
#[derive(Drop)]
pub struct ToWrite<W> {
    /// The writer.
    pub writer: W,
    /// How many calls failed, up to `u64::MAX`.
    pub failures: u64,
}

impl<W: Write> ToWrite<W> {
    /// A sink before the writer, which has not failed yet.
    pub fn new(writer: W) -> ToWrite<W>
        ensures writer { result.writer ≡ writer }
        ensures failures { result.failures ≡ 0 }
    {
        ToWrite {
            writer,
            failures: 0,
        }
    }

    /// Flushes the writer.
    ///
    /// # Errors
    ///
    /// [`Failed`], where the writer could not, which counts as a failure.
    pub fn flush(&mut self) -> Result<(), Failed>
        ensures kept { Keeps (W.contents self.old.writer) (W.contents self.new.writer) }
        ensures uncounted { OnOk result (self.new.failures ≡ self.old.failures) }
        ensures counted { OnErr result (self.new.failures ≡ one_more self.old.failures) }
    {
        if self.writer.flush().is_err() {
            return Err(Failed::count(&mut self.failures));
        }
        Ok(())
    }
}

impl<W: Write> Sink for ToWrite<W> {
    ghost use Rattle.std.specs.Io.KnownBytes.{Appends};
    ghost use Rattle.gw_io.specs.StdIo.{Appends-nothing, Appends-onward};

    ghost wrote = { λ a bytes b. Appends (W.contents a.writer) (W.contents b.writer) bytes };

    ghost failures = { λ a. a.failures };

    ghost nothing = { λ a. Appends-nothing (W.contents a.writer) };

    ghost onward = { λ a b c x y.
        Appends-onward (W.contents a.writer) (W.contents b.writer) (W.contents c.writer) x y };

    fn write(&mut self, bytes: &[u8]) -> Result<usize, Failed> {
        match self.writer.write(bytes) {
            Ok(count) if count > 0 || bytes.is_empty() => Ok(count),
            _ => Err(Failed::count(&mut self.failures)),
        }
    }
}
