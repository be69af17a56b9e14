// What follows from the definitions alone.
ghost use Rattle.lrat_check.specs.Written.{WrittenIsTaken};

/// The text of an accepted log is read as its lines, none of which is refused.
pub fn written_law()
    ensures { WrittenIsTaken }
{
    lrat_log::round_trip();
    lrat_log::range_laws();
}
