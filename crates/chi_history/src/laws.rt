//! Laws of histories. Each function does nothing: its contract is the law, for proofs that call it.

ghost use Rattle.chi_history.specs.HistoryLaws.{HitsAdd, ChangesOwnGranuleAlone, DifferingWordsAreHit, EndsAdd, PrefixIsLegal, EntriesOfAdd, FreeHasNone, FreeAdds, FreeOfAllIsEmpty, OneIsPrefix};

/// Hits over two stretches are those over the first and those over the second, which stands after it.
pub fn hits_add()
    ensures { HitsAdd }
{}

/// An appended entry changes the word of its own granule alone.
pub fn entry_changes_own_granule_alone()
    ensures { ChangesOwnGranuleAlone }
{}

/// Where a granule's words differ, an entry between them hits it.
pub fn differing_words_are_hit()
    ensures { DifferingWordsAreHit }
{}

/// The memory after two stretches is that of the second from the memory after the first.
pub fn ends_add()
    ensures { EndsAdd }
{}

/// A prefix of a legal history is legal.
pub fn prefix_is_legal()
    ensures { PrefixIsLegal }
{}

/// The entries of a requester in two stretches are those in the first and those in the second.
pub fn entries_of_add()
    ensures { EntriesOfAdd }
{}

/// A stretch that contains no entry of a set has none of a number in it.
pub fn free_has_none()
    ensures { FreeHasNone }
{}

/// Two stretches that contain no entry of a set make one that contains none.
pub fn free_adds()
    ensures { FreeAdds }
{}

/// A stretch of a legal history that contains no entry of any requester is empty.
pub fn free_of_all_is_empty()
    ensures { FreeOfAllIsEmpty }
{}

/// Of two prefixes of one history, one is a prefix of the other.
pub fn one_is_prefix()
    ensures { OneIsPrefix }
{}
