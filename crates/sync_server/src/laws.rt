//! Facts about all answers, which a proof can call for.
ghost use Rattle.sync_server.specs.Laws.{AnswersTell, HeadsAreJudged, RequestsAreJudged, ConnectionsAreDecided, AcceptedAreKept};

/// A law: a request is answered by exactly the messages that the group had before and that are later than it asks for, each once,
/// from the oldest on. So no message that it hands in is answered back, unless the group had it. The trie is that of what the group
/// has then, with the messages that the request handed in.
pub fn answers_tell()
    ensures { AnswersTell }
{}

/// A law: a head is refused for the first row that holds of it. These are another path, another method, no length of the body or
/// one that comes in pieces, lengths that are none or differ, one above 67,108,864, and another token. Where none of them holds,
/// and only there, it takes a body of the length that is told.
pub fn heads_are_judged()
    ensures { HeadsAreJudged }
{}

/// A law: a request is refused for the first row that holds of it. These are an encrypted envelope, no text to ask from, a file
/// that the keeper doesn't have, another group than the file's, and a record of the group that keeps no message. Where none of them
/// holds, and only there, it is accepted, over the messages of its group.
pub fn requests_are_judged()
    ensures { RequestsAreJudged }
{}

/// A law: where a whole head stands within the first 65,536 bytes of a connection, one verdict is decided over what the keeper has.
/// A head that is refused decides by itself, whatever follows it.
pub fn connections_are_decided()
    ensures { ConnectionsAreDecided }
{}

/// A law: what is kept changes where a request is accepted, and only there. Its messages are joined to those of its group, each
/// other group and each text stays, and the status 200 says so, with the answer to the request.
pub fn accepted_are_kept()
    ensures { AcceptedAreKept }
{}
