//! Facts about all edits of pairs and splits, which a proof can call for.
ghost use Rattle.book_rows.specs.declared.rows.Rows.{Rows};
ghost use Rattle.split_transfer.specs.Right.{LinksAreTold, PairsAndSplitsStayRight};
ghost use Rattle.split_transfer.specs.PlainEdits.{PlainEditsKeepPairsAndSplits};
ghost use Rattle.split_transfer.specs.Broken.{BrokenTellsAll};

/// A law: the partner of a live transaction is told exactly where the two are a pair: both are live, and each names the other. The
/// parts of a transaction that was not deleted are exactly the live ones that say so.
pub fn links_are_told()
    ensures { (rows : Rows) → LinksAreTold rows }
{}

/// A law: after an edit that is accepted each pair of opposite amounts and the same day, and each split whose parts add up to its
/// amount, is right as before, if it is there still, and so is each that the edit makes. It is asked before that no part of a pair is
/// split or part of a split, that the ids of the rows that the edit makes are new and differ, and that no transaction names one of
/// them as what it is a part of.
pub fn pairs_and_splits_stay_right()
    ensures { PairsAndSplitsStayRight }
{}

/// A law: the same holds after each plain edit that is accepted, but for the one that gives any field any value. It is asked before
/// that the ids of the rows that the edit makes are new, and that no transaction names one that the edit adds as what it is a part of.
pub fn plain_edits_keep_pairs_and_splits()
    ensures { PlainEditsKeepPairsAndSplits }
{}

/// A law: nothing is told as broken exactly where each live transaction that names one, be it itself, is in a pair with it, each pair is
/// right, and each split is.
pub fn broken_tells_all()
    ensures { BrokenTellsAll }
{}
