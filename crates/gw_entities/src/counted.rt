ghost use Rattle.std.specs.Prelude.{◌≡◌, ℕ};

use gw_nums::Clock;

/// What is counted of an entity.
pub trait Counted: Copy {
    ghost anew: { ℕ → Self → Self };

    /// It, counted anew from a clock on, as a RESET does.
    fn anew(self, clock: Clock) -> Self
        ensures { result ≡ anew clock self };
}
