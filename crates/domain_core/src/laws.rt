//! Laws of the events of every domain.

ghost use Rattle.domain_core.specs.Laws.{FittingStays, JournalsAddUp, NextIsAnAnswer, HistoriesGrow, OwnCommandsAddUp, StepsAreNobodys};
ghost use Rattle.domain_core.specs.Peek.{PeekAnswersTheWord};
ghost use Rattle.domain_core.specs.Wiring.{DevicesAreWhereNamed};

/// In the part of an accepted domain a device is joined to a port exactly if the part names the port for it: as the
/// port of the host of that number, or as that of the link of the node of that number.
pub fn devices_are_where_named()
    ensures law { DevicesAreWhereNamed }
{}

/// A domain that fits a plan goes on fitting it while its part and its ports stay, as they do through each event, each
/// ticket and each restart.
pub fn fitting_stays()
    ensures law { FittingStays }
{}

/// A journal and what was appended to it stand for what the one and then the other stand for.
pub fn journals_add_up()
    ensures law { JournalsAddUp }
{}

/// What a farm that holds the domain alone answers next after a history is its last answer to some list of calls, and
/// the history with that reply is a history.
pub fn histories_grow()
    ensures answer { NextIsAnAnswer }
    ensures history { HistoriesGrow }
{}

/// A user's commands in a history that goes on with a later one are those in the first, followed by
/// those in the later. Steps are no user's commands.
pub fn own_commands_add_up()
    ensures law { OwnCommandsAddUp }
    ensures steps { StepsAreNobodys }
{}

/// A host that sends the peek message to a node which boots receives exactly the four bytes of the word at the address,
/// least significant first, or four zeros if the address lies outside memory. The node wants a control byte again, and
/// its link knows of no acknowledge. Nothing else of the node or the host has changed. It takes 27 events: five times a
/// Move of the host's port, a Step of the node and a Move of the link's port, and four times a Move of the link's port,
/// a Move of the host's port and a Step of the node.
///
/// Source: Transputer Reference Manual, links, and bootstrapping, peek.
pub fn peek_answers_the_word()
    ensures law { PeekAnswersTheWord }
{}
