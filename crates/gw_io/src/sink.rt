ghost use Rattle.std.specs.Prelude.{◌≡◌, ℕ, ◌≤◌, ◌<◌, List, [], ◌++◌, length, take, IfOk, OnOk, OnErr};
ghost use Rattle.gw_io.specs.Failures.{one_more, WritesPart};

use crate::source::Failed;

/// A sink of bytes.
///
/// `wrote a bytes b` says that between the states `a` and `b` just these bytes were written, and `failures`
/// counts the calls that failed, up to `u64::MAX`.
pub trait Sink {
    ghost wrote: { Self → List ℕ → Self → Type 0 };

    ghost failures: { Self → ℕ };

    /// Writes a front part of `bytes`, and says how long it is: at least one byte, where there is one. A call
    /// that can take none of them fails, and one that fails writes nothing.
    fn write(&mut self, bytes: &[u8]) -> Result<usize, Failed>
        ensures count { IfOk result (λ n. n ≤ length bytes.now) }
        ensures some { IfOk result (λ n. 0 < length bytes.now → 0 < n) }
        ensures ok { IfOk result (λ n. wrote self.old (take n bytes.now) self.new) }
        ensures err { OnErr result (wrote self.old [] self.new) }
        ensures uncounted { OnOk result (failures self.new ≡ failures self.old) }
        ensures counted { OnErr result (failures self.new ≡ one_more (failures self.old)) };

    // Nothing was written between a state and itself.
    ghost nothing: { (a : Self) → wrote a [] a };

    // What was written first stands before what was written next.
    ghost onward: { (a b c : Self) (x y : List ℕ) → wrote a x b → wrote b y c → wrote a (x ++ y) c };
}

/// Writes all the bytes.
///
/// # Errors
///
/// [`Failed`], where a call of [`Sink::write`] failed: a front part of the bytes is written then.
pub fn write_all<K: Sink>(sink: &mut K, bytes: &[u8]) -> Result<(), Failed>
    ensures ok { OnOk result (K.wrote sink.old bytes.now sink.new) }
    ensures err { OnErr result (WritesPart K.wrote sink.old bytes.now sink.new) }
    ensures uncounted { OnOk result (K.failures sink.new ≡ K.failures sink.old) }
    ensures counted { OnErr result (K.failures sink.new ≡ one_more (K.failures sink.old)) }
{
    let mut written = 0;
    while written < bytes.len() {
        written += sink.write(&bytes[written..])?;
    }
    Ok(())
}
