//! Facts about all conversations, which a proof can call for.
ghost use Rattle.device_sync.specs.Laws.{RepliesHaveOneMeaning, TalksAreTold, TalksAreValid, TalksConverge};
ghost use Rattle.device_sync.specs.Served.{ServedIsHonest};

use sync_server::accepted_are_kept;
use sync_wire::meanings_are_valid;

/// A law: a reply is judged as one thing.
pub fn replies_have_one_meaning()
    ensures { RepliesHaveOneMeaning }
{}

/// A law: what a conversation leaves is a function of what its replies are judged as.
pub fn talks_are_told()
    ensures { TalksAreTold }
{}

/// A law: the messages of each reply of a conversation are valid, whatever the server sends.
pub fn talks_are_valid()
    ensures { TalksAreValid }
{
    meanings_are_valid();
}

/// A law: a conversation with an honest server, whose replies are not too long, has at most eighteen requests and does not end out of
/// sync or with a bad reply. Where it ends with an agreement, both have one hash at the root; and where that means the same timestamps, and
/// equal timestamps mean equal messages, both have joined both sets.
pub fn talks_converge()
    ensures { TalksConverge }
{}

/// A law: where `sync_server::serve_one` wrote a whole reply to the request of a device, over contents that have the request's group, that was an
/// exchange of an honest server: the answer to the request and nothing else with the status 200, after which the group has the messages of both, of
/// one timestamp that which was there; or one of the statuses 413, 503 and 507, after which the group is as it was. The token has to be one that can
/// stand in a head. What was served, and that the written answer means this answer, `serve_one` promises (fields `found` and `means`).
pub fn served_is_honest()
    ensures { ServedIsHonest }
{
    accepted_are_kept();
}
