ghost use Rattle.std.specs.Prelude.{◌≡◌, ℕ, List, [], ◌++◌, None, IfOk, OnOk, OnErr, option_to_list};
ghost use Rattle.gw_io.specs.Failures.{one_more};

/// A reader or a writer failed.
#[derive(Clone, Copy)]
pub struct Failed;

impl Failed {
    // Counts one more failure.
    pub(crate) fn count(failures: &mut u64) -> Failed
        ensures { failures.new ≡ one_more failures.old }
    {
        *failures = failures.saturating_add(1);
        Failed
    }
}

/// A source of bytes that are read one at a time.
///
/// `took a bytes b` says that between the states `a` and `b` just these bytes were read, `ended` that the
/// input has no more of them, and `failures` counts the calls that failed, up to `u64::MAX`.
pub trait Source {
    ghost took: { Self → List ℕ → Self → Type 0 };

    ghost ended: { Self → Type 0 };

    ghost failures: { Self → ℕ };

    /// The next byte, or `None` at the end of the input. A call that fails reads nothing.
    fn read(&mut self) -> Result<Option<u8>, Failed>
        ensures ok { IfOk result (λ next. took self.old (option_to_list next) self.new) }
        ensures end { IfOk result (λ next. next ≡ None → ended self.new) }
        ensures err { OnErr result (took self.old [] self.new) }
        ensures uncounted { OnOk result (failures self.new ≡ failures self.old) }
        ensures counted { OnErr result (failures self.new ≡ one_more (failures self.old)) };

    // Nothing was read between a state and itself.
    ghost nothing: { (a : Self) → took a [] a };

    // What was read first stands before what was read next.
    ghost onward: { (a b c : Self) (x y : List ℕ) → took a x b → took b y c → took a (x ++ y) c };
}
