//! Facts about what a group keeps of messages, which a proof can call for.
ghost use Rattle.kept_messages.specs.Groups.{GroupsAreRead};
ghost use Rattle.kept_messages.specs.Holding.{BatchesAreKept};
ghost use Rattle.kept_messages.specs.News.{NewOnesAreAdded};
ghost use Rattle.kept_messages.specs.Records.{RecordsReadBack, RecordsAreRead};

/// A law: the record of a message keeps that message. A record that keeps a message is the record of
/// that message, but for the bytes 0 and LF that stand in its body without their escape.
pub fn records_read_back()
    ensures { RecordsReadBack }
{}

/// A law: records of which each keeps a message have a message set, which is their messages joined in
/// order. Else the place of the first record that keeps none is told, whatever stands behind it.
pub fn records_are_read()
    ensures { RecordsAreRead }
{}

/// A law: what a group keeps is read as the messages of all its records, each once, and no others. Where
/// some record keeps no message, the first such is told, by the number of those before it.
pub fn groups_are_read()
    ensures { GroupsAreRead }
{}

/// A law: a group that keeps a message set keeps, with the records of the new ones of other valid messages
/// appended, that set joined with these messages. It loses none of the records that it had at entry
/// and changes none, each other one is just the record of a message of the set, and all else that is
/// kept stays.
pub fn batches_are_kept()
    ensures { BatchesAreKept }
{}

/// A law: of messages that come, those that are new stand in the order in which they came; joining
/// them alone joins all of them, and the join has one message more for each. So the number of the new ones says
/// by how many messages the set has grown, and a timestamp that comes twice counts once.
pub fn new_ones_are_added()
    ensures { NewOnesAreAdded }
{}
