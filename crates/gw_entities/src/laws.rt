// Laws above the definitions.
ghost use Rattle.gw_meaning.specs.Levels.{SumIsOverTicks};

/// The sum of a level, which is moved on only where its content changes, is the sum of the contents in all ticks.
pub fn sum_is_over_ticks()
    ensures { SumIsOverTicks }
{}
