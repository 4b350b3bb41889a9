//! A law of the counts of certified plans.
ghost use Rattle.grid_command.specs.TickLaw.{TicksAddUp};

/// In a certified plan the ticks of all spans, and those of a whole window for each pair that is not spans, are as many as the
/// pairs of satellites that are not refused have together.
pub fn ticks_add_up()
    ensures { TicksAddUp }
{}
