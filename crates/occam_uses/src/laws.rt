//! Laws of uses.

ghost use Rattle.occam_uses.specs.Laws.{ApartUsesShareNothing, ValueIsOfWhatIsRead};

/// What an expression is worth depends on the bytes alone that it reads, if the index of each loop around it has one of its
/// values.
pub fn value_is_of_what_is_read()
    ensures law { ValueIsOfWhatIsRead }
{}

/// Two processes are apart exactly if neither changes a byte that the other changes or reads, and no channel is sent to by
/// both, or received from by both.
pub fn apart_uses_share_nothing()
    ensures law { ApartUsesShareNothing }
{}
