//! A law of timetables.
ghost use Rattle.plan_text.specs.TimetableLaw.{TimetablesAreInOrder};

/// A timetable has the visible spans of its station, each once, by where they begin, where they end, and the satellites'
/// numbers; and it is the only such list.
pub fn timetables_are_in_order()
    ensures { TimetablesAreInOrder }
{}
