//! The answer to a request.
ghost use Rattle.std.specs.Prelude.{◌≡◌, ◌++◌, map, false, IfOk, OnOk};
ghost use Rattle.field_merge.specs.Log.{join};
ghost use Rattle.field_merge.specs.Messages.{AreMessages};
ghost use Rattle.minute_trie.specs.Trie.{is_spent, IsTrieOf};
ghost use Rattle.kept_messages.specs.News.{new_in};
ghost use Rattle.kept_messages.specs.Pairs.{pairs_of};
ghost use Rattle.kept_messages.specs.Records.{record_of};
ghost use Rattle.sync_server.specs.Answer.{answer_of};

use budget_ports::Record;
use field_merge::Log;
use field_values::NoMemory;
use kept_messages::join_all;
use minute_trie::Trie;
use std::alloc::Global;
use sync_wire::{SyncRequest, SyncResponse};

/// Joins the messages of a request to a log and its trie, adds the records of the new ones to a batch, and gives the answer.
/// It costs the messages of the request and of the answer, and the text of the trie, however many messages the log has.
/// After want of memory the log, the trie or the batch may have some of them.
pub fn join_request(
    alloc: Global,
    log: &mut Log,
    trie: &mut Trie,
    request: &SyncRequest,
    batch: &mut Vec<Record>,
) -> Result<SyncResponse, NoMemory>
    requires live { log.old.spent ≡ false }
    requires trie_live { is_spent trie.old ≡ false }
    requires right { IsTrieOf (pairs_of log.old.messages) trie.old }
    requires valid { AreMessages request.now.messages }
    ensures answer { IfOk result (λ a. a ≡ answer_of log.old.messages request.now) }
    ensures valid { IfOk result (λ a. AreMessages a.messages) }
    ensures live { OnOk result (log.new.spent ≡ false) }
    ensures trie_live { OnOk result (is_spent trie.new ≡ false) }
    ensures right { OnOk result (IsTrieOf (pairs_of log.new.messages) trie.new) }
    ensures joined { OnOk result (log.new.messages ≡ join log.old.messages request.now.messages) }
    ensures batch { OnOk result (batch.new.items ≡ batch.old.items ++ map record_of (new_in log.old.messages request.now.messages)) }
{
    let messages = log.since(request.since.bytes())?;
    join_all(alloc, log, trie, request.messages.as_slice(), batch)?;
    let merkle = trie.to_json()?;
    Ok(SyncResponse {
        messages,
        encrypted: false,
        merkle,
    })
}

/// The answer to a request of a group that has the messages of a log, which stays as it is. It goes through all of them.
pub fn answer(alloc: Global, log: &Log, request: &SyncRequest) -> Result<SyncResponse, NoMemory>
    requires live { log.now.spent ≡ false }
    requires valid { AreMessages request.now.messages }
    ensures answer { IfOk result (λ a. a ≡ answer_of log.now.messages request.now) }
    ensures valid { IfOk result (λ a. AreMessages a.messages) }
{
    // The contract of `len` says that the messages of a log rise.
    let _count = log.len();
    let known = log.since(b"")?;
    let mut copy = Log::new(alloc);
    let mut trie = Trie::new(alloc);
    let mut batch = Vec::new(alloc);
    join_all(alloc, &mut copy, &mut trie, known.as_slice(), &mut batch)?;
    join_request(alloc, &mut copy, &mut trie, request, &mut batch)
}
