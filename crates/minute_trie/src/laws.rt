//! Laws of the definitions that the contracts cite.
ghost use Rattle.minute_trie.specs.Laws.{OrderIsFree, PrunedForGood, TriesAreMaps, TextsReadBack, DifferencesAreFound, RoundsEnd, RoundsAreMade, StampsArePlaced};
ghost use Rattle.minute_trie.specs.FirstFault.{FaultsAreFirst};

/// The trie of a list does not depend on the order of the list.
pub fn order_free()
    ensures { OrderIsFree }
{}

/// A string that is present and not kept is not kept after further pairs.
pub fn pruned_for_good()
    ensures { PrunedForGood }
{}

/// A timestamp stands in a trie by its minute, as sixteen digits to the base 3, with the hash of its
/// text.
pub fn stamps_are_placed()
    ensures { StampsArePlaced }
{}

/// Each trie that there is holds a map of at most 16 digits: the trie of a list of pairs, as
/// timestamps give them, that of a text, and what one pair more makes of such a map.
pub fn tries_are_maps()
    ensures { TriesAreMaps }
{}

/// The text of such a map is that of a trie, and reads back as it.
pub fn reads_back()
    ensures { TextsReadBack }
{}

/// A moment is told of two tries exactly where their roots have two hashes. The walk then goes
/// down through nodes that differ, each time by the first digit at which the two haven't the same,
/// and the moment is that of the first minute below the place where it ends.
pub fn differences_are_found()
    ensures { DifferencesAreFound }
{}

/// After a round from the moment that is told of two tries, in which both sides exchange all that
/// they hold from there on, the tries have one hash at the root, or the walk ends next at a proper
/// prefix of that place. A place has at most 16 digits, so there are at most 17 such rounds.
pub fn rounds_by_minute()
    ensures { RoundsEnd }
{}

/// A round can be made from any minute on, whatever the sides hold in common: each takes what the
/// other alone holds from there on.
pub fn rounds_are_made()
    ensures { RoundsAreMade }
{}

/// Of a text that is no trie the first fault is told, a node before its children and they ascending: the value that is no
/// node, by its depth, or that stands deeper than any key reaches; and where none is told each value is a node of a trie.
pub fn faults_are_first()
    ensures { FaultsAreFirst }
{}
