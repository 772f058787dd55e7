//! Laws of answered lines.

ghost use Rattle.line_answers.specs.Laws.{FullIsSaidTruly};

/// Lines that were answered say that a journal is full, or nearly full, only if the user's domain is closed with such a one,
/// if the user has met one only then. [`farm_service::Service::close`] sees that the user has.
pub fn full_is_said_truly()
    ensures law { FullIsSaidTruly }
{}
