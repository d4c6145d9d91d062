//! What the server keeps by itself: its token, and what it knows of each group that it has read.
ghost use Rattle.std.specs.Prelude.{◌≡◌, ◌++◌, map, IfOk, OnOk, OnErr, None, Some, Option, List};
ghost use Rattle.budget_ports.specs.Contents.{Contents, Text};
ghost use Rattle.field_merge.specs.Log.{join};
ghost use Rattle.field_merge.specs.Messages.{AreMessages};
ghost use Rattle.kept_messages.specs.Pairs.{pairs_of};
ghost use Rattle.kept_messages.specs.News.{new_in};
ghost use Rattle.kept_messages.specs.Records.{record_of};
ghost use Rattle.minute_trie.specs.Trie.{is_spent, IsTrieOf};
ghost use Rattle.sync_server.specs.Answer.{answer_of};
ghost use Rattle.sync_server.specs.State.{read_of, Agrees};
ghost use Rattle.sync_server.specs.Keeping.{Puts, Stands};

use crate::answering::join_request;
use crate::routes::Routes;
use budget_ports::Record;
use field_merge::Log;
use field_values::{NoMemory, Txt};
use minute_trie::Trie;
use std::alloc::Global;
use std::collections::BTreeMap;
use std::marker::Model;
use sync_wire::{SyncRequest, SyncResponse};

/// The messages of a group, with their trie. A contract sees the message set.
#[derive(Drop)]
pub(crate) struct Kept {
    log: Log,
    trie: Trie,
}

impl Model for Kept {
    ghost use Rattle.std.specs.Prelude.{◌≡◌, List, false};
    ghost use Rattle.field_merge.specs.declared.message.Message.{Message};
    ghost use Rattle.kept_messages.specs.Pairs.{pairs_of};
    ghost use Rattle.minute_trie.specs.Trie.{is_spent, IsTrieOf};

    ghost Value = { List Message };

    ghost view = { λ k. k.log.messages };

    ghost invariant = { λ k. (k.log.spent ≡ false) × (is_spent k.trie ≡ false) × IsTrieOf (pairs_of k.log.messages) k.trie };
}

impl Kept {
    ghost use Rattle.std.specs.Prelude.{false};

    /// Takes a log with its trie.
    pub(crate) fn new(log: Log, trie: Trie) -> Kept
        requires live { log.spent ≡ false }
        requires trie_live { is_spent trie ≡ false }
        requires right { IsTrieOf (pairs_of log.messages) trie }
        ensures { result ≡ log.messages }
    {
        Kept { log, trie }
    }

    /// The messages with those of a request, and the answer to it. The records of the new ones are added to a batch.
    pub(crate) fn join(
        self,
        alloc: Global,
        request: &SyncRequest,
        batch: &mut Vec<Record>,
    ) -> Result<(Kept, SyncResponse), NoMemory>
        requires { AreMessages request.now.messages }
        ensures joined { IfOk result (λ r. r.0 ≡ join self request.now.messages) }
        ensures answer { IfOk result (λ r. r.1 ≡ answer_of self request.now) }
        ensures valid { IfOk result (λ r. AreMessages r.1.messages) }
        ensures batch { OnOk result (batch.new.items ≡ batch.old.items ++ map record_of (new_in self request.now.messages)) }
    {
        let Kept { mut log, mut trie } = self;
        let response = join_request(alloc, &mut log, &mut trie, request, batch)?;
        Ok((Kept { log, trie }, response))
    }
}

/// What was read of a group: its messages, or the place of the first record that keeps none, counted from 0.
pub(crate) type Reading = Result<Kept, usize>;

/// The token of the server, and what it knows of the groups that it has read: of each its log and its trie, or where it has a bad
/// record. So a request costs its own messages, and a group with a bad record is read once.
///
/// What it knows of a group is to be so of the keeper's group ([`serve_one`](crate::serve_one) requires it and leaves
/// it so). After want of memory it can be used again.
#[derive(Drop)]
pub struct ServerState {
    routes: Routes,
    token: Txt,
    groups: BTreeMap<Txt, Reading>,
}

impl ServerState {
    ghost use Rattle.budget_ports.specs.Contents.{Contents};

    /// The state of a server that has read no group. It has this token.
    pub fn new(alloc: Global, token: &Txt) -> Result<ServerState, NoMemory>
        ensures token { IfOk result (λ state. state.token ≡ token.now) }
        ensures empty { IfOk result (λ state. (group : Text) → read_of state group ≡ None) }
        ensures agrees { IfOk result (λ state. (k : Contents) → Agrees state k) }
    {
        Ok(ServerState {
            routes: Routes::new(alloc)?,
            token: token.copy()?,
            groups: BTreeMap::new(alloc),
        })
    }

    /// The paths that it knows.
    pub(crate) fn routes(&self) -> &Routes {
        &self.routes
    }

    /// The token.
    pub(crate) fn token(&self) -> &Txt
        ensures { result.now ≡ self.now.token }
    {
        &self.token
    }

    /// Takes out what it knows of a group.
    pub(crate) fn take(&mut self, group: &Txt) -> Option<Reading>
        ensures taken { result ≡ read_of self.old group.now }
        ensures rest { Puts self.old self.new group.now None }
    {
        self.groups.remove(group)
    }

    /// Knows this of a group.
    pub(crate) fn put(&mut self, group: &Txt, reading: Reading) -> Result<(), NoMemory>
        ensures ok { OnOk result (Puts self.old self.new group.now (Some reading)) }
        ensures err { OnErr result (Stands self.old self.new) }
    {
        let group = group.copy()?;
        self.groups.insert(group, reading)?;
        Ok(())
    }

    /// Forgets what it knows of a group.
    pub(crate) fn forget(&mut self, group: &Txt)
        ensures { Puts self.old self.new group.now None }
    {
        self.groups.remove(group);
    }
}
