//! Laws of spelling, for every type. Each is the contract of a function that does nothing; a proof
//! that needs one calls it, or cites the lemma behind it.

ghost use Rattle.nfs_xdr.specs.Laws.{SpellingIsUnique, ReadingFindsSpelling, SpellingIsRead, RefusalMeansUnspelled};
ghost use Rattle.nfs_xdr.specs.Laws.{SpelledHasSpelling, WritingSpells, WritingAppends};

/// Two fronts of one list that spell values of one type are one front, and spell one value.
pub fn spelling_is_unique()
    ensures { SpellingIsUnique }
{}

/// What is read of bytes is spelled by a front of them, and the rest stands behind it.
pub fn reading_finds_spelling()
    ensures { ReadingFindsSpelling }
{}

/// What a front spells is read, whatever stands behind it and whatever its padding is.
pub fn spelling_is_read()
    ensures { SpellingIsRead }
{}

/// Where reading refuses, no front spells a value; and it does not refuse for want of memory.
pub fn refusal_means_unspelled()
    ensures { RefusalMeansUnspelled }
{}

/// Only a value that has a spelling is spelled.
pub fn spelled_has_spelling()
    ensures { SpelledHasSpelling }
{}

/// What is written of a value that has a spelling is its one spelling with zeros as padding.
pub fn writing_spells()
    ensures { WritingSpells }
{}

/// The bytes that are appended for a value are the same, whatever stands before them.
pub fn writing_appends()
    ensures { WritingAppends }
{}
