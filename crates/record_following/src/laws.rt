//! Laws of the moments to which a domain is led.

ghost use Rattle.record_following.specs.Following.{MomentsGoOn};
ghost use Rattle.record_following.specs.RecordCursor.{CursorEnds};

/// A moment after calls that goes on by others is one after those and these.
pub fn moments_go_on()
    ensures law { MomentsGoOn }
{}

/// If nothing is left of a record, all its calls were done.
pub fn cursor_ends()
    ensures law { CursorEnds }
{}
