//! Laws of private switches, of the numbers of ports and of rows of words.
ghost use Rattle.crossbar.specs.Laws.{SwitchLaws, InputsHaveNumbers, BothCountOnce, ClearedIsPrivate, UnchangedCountsNothing, NumberingsAreFew, RowTakesAWord, UnusedIsCleared, WordsAreASwitch};

/// What a private switch says of its outputs, and whose number a port has.
pub fn switches_say_their_words()
    ensures laws { SwitchLaws }
    ensures cleared { ClearedIsPrivate }
{}

/// What a private switch says of physical inputs, which have numbers there.
pub fn inputs_have_numbers()
    ensures { InputsHaveNumbers }
{}

/// Two outputs that are set count their changes once each.
pub fn both_count_once()
    ensures { BothCountOnce }
{}

/// Words that stay count no change.
pub fn unchanged_words_count_nothing()
    ensures unchanged { UnchangedCountsNothing }
{}

/// What holds of the words of outputs and of their ports, and what switch changed words are in physical numbers.
pub fn rows_are_words_of_ports()
    ensures few { NumberingsAreFew }
    ensures set { RowTakesAWord }
    ensures unused { UnusedIsCleared }
    ensures switch { WordsAreASwitch }
{}
