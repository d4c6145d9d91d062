//! Facts about all timestamps and texts, which a proof can call for.
ghost use Rattle.hybrid_clock.specs.Faults.{StampFaultsAreTold};
ghost use Rattle.hybrid_clock.specs.Moments.{MomentsAreInOrder};
ghost use Rattle.hybrid_clock.specs.Laws.{ClocksBegin, ClocksMove, DatesAreCivil, DrawsAreRefused, NodesAreNamed, ReceivesAreRefused, StampsAreInOrder, StampsReadBack, StampsWriteBack, TextsShowTimes};

/// A law: the date that a timestamp's text shows is the civil date with as many days since 1970 as its milliseconds make.
pub fn date_of_number()
    ensures { DatesAreCivil }
{}

/// A law: the texts that name a node are those of one to sixteen letters and digits that are not all `0`, and the node is
/// that text with `0` on its left up to sixteen characters. So each node is named by its own characters.
pub fn nodes_are_named()
    ensures { NodesAreNamed }
{}

/// A law: a clock moves, at each reading in the window that isn't too far behind the clock and the message, while there are
/// counters, and where it goes.
pub fn clocks_move()
    ensures { ClocksMove }
{}

/// A law: where a clock begins. It has its own node, and the time and the counter of the last message, or 0 and 0.
pub fn clocks_begin()
    ensures { ClocksBegin }
{}

/// A law: which draws and which messages are refused, and for what. A reading past the window comes first, then a time that is
/// more than 300,000 milliseconds ahead of the reading, the message's before the clock's, then a counter above 65,535. With
/// `clocks_move` it says of each draw and each receive what comes of it.
pub fn clocks_refuse()
    ensures draws { DrawsAreRefused }
    ensures receives { ReceivesAreRefused }
{}

/// A law: the text of a timestamp shows the date and the time of the day that its milliseconds make, its counter and its node.
pub fn texts_show_times()
    ensures { TextsShowTimes }
{}

/// A law: a fault is told of a text exactly where it is the first thing that is wrong with it.
pub fn stamp_faults_are_told()
    ensures { StampFaultsAreTold }
{}

/// A law: what is written is read back, so no two timestamps have one text.
pub fn text_reads_back()
    ensures { StampsReadBack }
{}

/// A law: what is read is a timestamp, and the text is the one that is written for it. So no two texts are read as one
/// timestamp.
pub fn read_writes_back()
    ensures { StampsWriteBack }
{}

/// A law: the text of a timestamp is greater than that of a moment exactly where the moment isn't later.
pub fn moments_are_in_order()
    ensures { MomentsAreInOrder }
{}

/// A law: timestamps are ordered as their texts are byte by byte.
pub fn order_of_texts()
    ensures { StampsAreInOrder }
{}
