//! A law of where the processes of a program are.
ghost use Rattle.occam_code.specs.Layout.{ProcessesAreApart};

/// Processes of a program that can live together share none of the four words that each has of its own, and no word in which
/// they keep values. The former come before the variables, the latter after them, and all are in the room that the
/// program's start leaves.
pub fn processes_are_apart()
    ensures law { ProcessesAreApart }
{}
