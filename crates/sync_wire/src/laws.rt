//! Facts about all bytes and all messages, which a proof can call for.
ghost use Rattle.sync_wire.specs.Causes.{FaultsHaveCauses, TextsArePlaced};
ghost use Rattle.sync_wire.specs.Laws.{BytesAreRead, EnvelopesAreRead, MeaningsAreValid, WrittenReadBack, PlainWritesBack, NumbersAreShort, LastOnesCount};

/// A law: any bytes mean one request or have one first fault as a request, and not both. The same holds of replies, and of
/// contents under a timestamp.
pub fn bytes_are_read()
    ensures { BytesAreRead }
{}

/// A law: what an envelope is read as is what its fields mean, or else their first fault, also inside a body whose
/// places are told. The same holds of its content.
pub fn envelopes_are_read()
    ensures { EnvelopesAreRead }
{}

/// A law: the messages of a request or of a reply that bytes mean are valid, and so is the message of a content under a valid
/// timestamp.
pub fn meanings_are_valid()
    ensures { MeaningsAreValid }
{}

/// A law: a request, a reply and a message that are written read back as themselves, so no two of them have one spelling.
pub fn written_read_back()
    ensures { WrittenReadBack }
{}

/// A law: bytes of the one spelling that are read as a request, a reply or a message are the bytes that are written for it.
pub fn plain_writes_back()
    ensures { PlainWritesBack }
{}

/// A law: a number is written in the fewest bytes that spell it, and no other bytes of that length spell it.
pub fn numbers_are_short()
    ensures { NumbersAreShort }
{}

/// A law: a fault that is told where a field should stand has its cause: a number that breaks off, is too long or too large, a
/// tag that the message doesn't allow, or a content that is not there whole; and its place is that of the cause.
pub fn faults_have_causes()
    ensures { FaultsHaveCauses }
{}

/// A law: of a field that may stand once the last counts, whatever stands before it, and one that isn't there is an empty text,
/// no number but 0, or no content.
pub fn last_ones_count()
    ensures { LastOnesCount }
{}

/// A law: of a text that isn't UTF-8 the place is told behind its longest front that is, and of one that is none.
pub fn texts_are_placed()
    ensures { TextsArePlaced }
{}
