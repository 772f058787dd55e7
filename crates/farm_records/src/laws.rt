//! Laws of every record.

ghost use Rattle.farm_records.specs.Laws.{RecordsAreHistories, BeginningsAreRecords};

/// The lines of entries of a journal stand for exactly what the entries stand for.
pub fn records_are_histories()
    ensures law { RecordsAreHistories }
{}

/// A record that is cut after any of its lines is a record: its text is a beginning of the text, and its history is the
/// beginning of that history.
pub fn beginnings_are_records()
    ensures law { BeginningsAreRecords }
{}
