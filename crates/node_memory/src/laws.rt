//! Laws of memory: what its reads, writes and copies have to do with one another.

ghost use Rattle.node_memory.specs.Laws.{WordIsRead, WordHasFourAddresses, OtherWordsStay, WriteFaultsAsRead, WordIsFourBytes, ByteIsRead, OtherBytesStay, WordKeepsTheSize, ByteKeepsTheSize, CopyKeepsTheSize, CopyStopsAtTheEdge};

/// A word that was written is read by each of its four addresses, lies there least significant byte
/// first, and leaves every other word as it was. It is not written where it can't be read.
// Six clauses, each a law.
pub fn written_words_are_read()
    ensures read { WordIsRead }
    ensures addresses { WordHasFourAddresses }
    ensures others { OtherWordsStay }
    ensures faults { WriteFaultsAsRead }
    ensures bytes { WordIsFourBytes }
    ensures size { WordKeepsTheSize }
{}

/// A byte that was written is read, and every other byte stays.
pub fn written_bytes_are_read()
    ensures read { ByteIsRead }
    ensures others { OtherBytesStay }
    ensures size { ByteKeepsTheSize }
{}

/// A copy of more bytes than memory has is a fault, so it moves no more of them than that.
pub fn copies_stop_at_the_edge()
    ensures edge { CopyStopsAtTheEdge }
    ensures size { CopyKeepsTheSize }
{}
