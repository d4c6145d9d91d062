//! What a request does to what is kept.
ghost use Rattle.std.specs.Prelude.{◌≡◌, ◌≢◌, List, [], ℕ, IfOk, IfErr, OnOk, OnErr, Some, None, Ok, Result, Option, false};
ghost use Rattle.std.specs.FinMap as finite;
ghost use Rattle.field_merge.specs.Messages.{AreMessages};
ghost use Rattle.field_merge.specs.declared.message.Message.{Message};
ghost use Rattle.field_merge.specs.Log.{join};
ghost use Rattle.budget_ports.specs.Contents.{Text, records_after, appended};
ghost use Rattle.budget_ports.specs.Faults.{count_after};
ghost use Rattle.budget_ports.specs.Keeper.{IsKnown, IsAlone, Commits, HaveKeys};
ghost use Rattle.kept_messages.specs.Records.{kept_set};
ghost use Rattle.sync_server.specs.Serving.{Accepts, Found, file_name, reply_of, IsMeant, batch_of};
ghost use Rattle.sync_server.specs.Keeping.{OnlyReads, keeper_failed, JudgesGroup, ReadsGroup, OpensGroup, IsFree, Puts, IsPrepared, HasKept};
ghost use Rattle.sync_server.specs.State.{Agrees};

use crate::refusal::Refusal;
use crate::state::{Kept, Reading, ServerState};
use crate::writing::accepted;
use budget_ports::{Keeper, Record};
use field_values::{Items, NoMemory, Txt};
use kept_messages::{StartFault, read_log};
use std::alloc::Global;
use sync_wire::SyncRequest;

/// The name of the text in a keeper that tells the group of a file: `file/`, then the file.
pub fn file_name(alloc: Global, file: &Txt) -> Result<Txt, NoMemory>
    ensures { IfOk result (λ t. t ≡ file_name file.now) }
{
    let mut name = String::new(alloc);
    name.push_str("file/")?;
    name.push_str(file.as_str())?;
    Ok(Txt::new(name))
}

/// Whether a file that has this group is the one that a request means.
fn judge_group(request: &SyncRequest, group: Option<Txt>) -> Result<(), Refusal>
    ensures judged { JudgesGroup request.now group result }
    ensures sound { keeper_failed result ≡ false }
{
    match group {
        Some(group) => {
            if group.bytes() == request.group.bytes() {
                Ok(())
            } else {
                Err(Refusal::FileHasReset)
            }
        }
        None => Err(Refusal::FileNotFound),
    }
}

/// Asks the keeper whether the file has the group that a request names.
fn check_group<K: Keeper>(
    alloc: Global,
    keeper: &mut K,
    request: &SyncRequest,
) -> Result<(), Refusal>
    ensures found { (group : Option Text) × (K.tells keeper.new → group ≡ finite.get (K.contents keeper.old).texts (file_name request.now.file)) × JudgesGroup request.now group result }
    ensures reads { OnlyReads (K.tells keeper.old) (K.tells keeper.new) (K.contents keeper.old) (K.contents keeper.new) (K.left keeper.old) (K.left keeper.new) }
    ensures known { OnOk result (IsKnown (K.tells keeper.new) (K.left keeper.new)) }
    ensures count { K.faults keeper.new ≡ count_after (keeper_failed result) (K.faults keeper.old) }
{
    let name = file_name(alloc, &request.file)?;
    let group = keeper.get(&name)?;
    judge_group(request, group)
}

/// Reads a group from the keeper.
fn read_group<K: Keeper>(alloc: Global, keeper: &mut K, group: &Txt) -> Result<Reading, Refusal>
    ensures found { (set : Result (List Message) ℕ) × (K.tells keeper.new → set ≡ kept_set (records_after (K.contents keeper.old) group.now [])) × ReadsGroup set result }
    ensures reads { OnlyReads (K.tells keeper.old) (K.tells keeper.new) (K.contents keeper.old) (K.contents keeper.new) (K.left keeper.old) (K.left keeper.new) }
    ensures known { OnOk result (IsKnown (K.tells keeper.new) (K.left keeper.new)) }
    ensures count { K.faults keeper.new ≡ count_after (keeper_failed result) (K.faults keeper.old) }
{
    let first = Txt::new(String::new(alloc));
    let records = keeper.since(group, &first)?;
    match read_log(alloc, records.as_slice()) {
        Ok((log, trie)) => Ok(Ok(Kept::new(log, trie))),
        Err(StartFault::BadRecord { index }) => Ok(Err(index)),
        Err(StartFault::NoMemory) => Err(Refusal::NoMemory),
    }
}

/// The reply to a request that is accepted, and the records of its new messages, which are to be kept before it is written.
#[derive(Drop)]
pub(crate) struct Prepared {
    pub(crate) reply: Items<u8>,
    pub(crate) batch: Vec<Record>,
}

/// Takes out what the state knows of a group, or reads the group where it knows nothing.
fn open_group<K: Keeper>(
    alloc: Global,
    state: &mut ServerState,
    keeper: &mut K,
    group: &Txt,
) -> Result<Reading, Refusal>
    requires agrees { K.tells keeper.old → Agrees state.old (K.contents keeper.old) }
    ensures found { (set : Result (List Message) ℕ) × (K.tells keeper.new → set ≡ kept_set (records_after (K.contents keeper.old) group.now [])) × ReadsGroup set result }
    ensures rest { Puts state.old state.new group.now None }
    ensures reads { OnlyReads (K.tells keeper.old) (K.tells keeper.new) (K.contents keeper.old) (K.contents keeper.new) (K.left keeper.old) (K.left keeper.new) }
    ensures known { OnOk result (IsKnown (K.tells keeper.old) (K.left keeper.old) → IsKnown (K.tells keeper.new) (K.left keeper.new)) }
    ensures count { K.faults keeper.new ≡ count_after (keeper_failed result) (K.faults keeper.old) }
{
    match state.take(group) {
        Some(reading) => Ok(reading),
        None => read_group(alloc, keeper, group),
    }
}

/// Takes out the messages of a group. Where a record keeps none, that is known from then on, and where memory lacks nothing is known of
/// the group.
fn open_whole<K: Keeper>(
    alloc: Global,
    state: &mut ServerState,
    keeper: &mut K,
    group: &Txt,
) -> Result<Kept, Refusal>
    requires agrees { K.tells keeper.old → Agrees state.old (K.contents keeper.old) }
    ensures found { (set : Result (List Message) ℕ) × (K.tells keeper.new → set ≡ kept_set (records_after (K.contents keeper.old) group.now [])) × OpensGroup state.old state.new group.now set result }
    ensures reads { OnlyReads (K.tells keeper.old) (K.tells keeper.new) (K.contents keeper.old) (K.contents keeper.new) (K.left keeper.old) (K.left keeper.new) }
    ensures known { OnOk result (IsKnown (K.tells keeper.old) (K.left keeper.old) → IsKnown (K.tells keeper.new) (K.left keeper.new)) }
    ensures count { K.faults keeper.new ≡ count_after (keeper_failed result) (K.faults keeper.old) }
{
    let reading = open_group(alloc, state, keeper, group)?;
    match reading {
        Ok(kept) => Ok(kept),
        Err(index) => {
            state.put(group, Err(index))?;
            Err(Refusal::BadRecord)
        }
    }
}

/// The messages of a group with those of a request, and what is replied.
#[derive(Drop)]
struct Joined {
    kept: Kept,
    prepared: Prepared,
}

/// Joins a request to the messages of its group, and makes the reply.
fn reply_over(alloc: Global, kept: Kept, request: &SyncRequest) -> Result<Joined, NoMemory>
    requires { AreMessages request.now.messages }
    ensures joined { IfOk result (λ r. r.kept ≡ join kept request.now.messages) }
    ensures reply { IfOk result (λ r. r.prepared.reply ≡ reply_of (Accepts kept request.now)) }
    ensures means { IfOk result (λ _. IsMeant (Accepts kept request.now)) }
    ensures batch { IfOk result (λ r. r.prepared.batch.items ≡ batch_of kept request.now) }
{
    let mut batch = Vec::new(alloc);
    let (kept, response) = kept.join(alloc, request, &mut batch)?;
    let reply = accepted(alloc, &response)?;
    Ok(Joined {
        kept,
        prepared: Prepared { reply, batch },
    })
}

/// Joins a request to what the state knows of its group, which is read where it knows nothing, and makes the reply.
///
/// Where memory lacks nothing is known of the group then: what was joined is not what the keeper has. That a group has a bad record
/// is known from then on.
fn prepare<K: Keeper>(
    alloc: Global,
    state: &mut ServerState,
    keeper: &mut K,
    request: &SyncRequest,
) -> Result<Prepared, Refusal>
    requires valid { AreMessages request.now.messages }
    requires agrees { K.tells keeper.old → Agrees state.old (K.contents keeper.old) }
    ensures found { (set : Result (List Message) ℕ) × (K.tells keeper.new → set ≡ kept_set (records_after (K.contents keeper.old) request.now.group [])) × IsPrepared request.now state.old state.new set result }
    ensures reads { OnlyReads (K.tells keeper.old) (K.tells keeper.new) (K.contents keeper.old) (K.contents keeper.new) (K.left keeper.old) (K.left keeper.new) }
    ensures known { OnOk result (IsKnown (K.tells keeper.old) (K.left keeper.old) → IsKnown (K.tells keeper.new) (K.left keeper.new)) }
    ensures count { K.faults keeper.new ≡ count_after (keeper_failed result) (K.faults keeper.old) }
{
    let opened = open_whole(alloc, state, keeper, &request.group)?;
    let joined = reply_over(alloc, opened, request)?;
    state.put(&request.group, Ok(joined.kept))?;
    Ok(joined.prepared)
}

/// Keeps the records of new messages in one append, or forgets the group, which takes no memory.
fn commit<K: Keeper>(
    state: &mut ServerState,
    keeper: &mut K,
    group: &Txt,
    batch: &[Record],
) -> Result<(), Refusal>
    requires keys { HaveKeys batch.now }
    ensures ok { OnOk result (state.new ≡ state.old) }
    ensures err { OnErr result (Puts state.old state.new group.now None) }
    ensures free { IfErr result IsFree }
    ensures told { K.tells keeper.new → K.tells keeper.old }
    ensures kept { K.tells keeper.new → OnOk result (K.contents keeper.new ≡ appended (K.contents keeper.old) group.now batch.now) }
    ensures unkept { K.tells keeper.new → OnErr result (K.contents keeper.new ≡ K.contents keeper.old) }
    ensures stops { Commits (K.tells keeper.old) (K.left keeper.old) (K.left keeper.new) (appended (K.contents keeper.old) group.now batch.now) }
    ensures known { OnOk result (IsKnown (K.tells keeper.old) (K.left keeper.old) → IsKnown (K.tells keeper.new) (K.left keeper.new)) }
    ensures alone { OnOk result (batch.now ≢ [] → IsAlone (K.tells keeper.new) (K.contents keeper.new) (K.left keeper.new)) }
    ensures count { K.faults keeper.new ≡ count_after (keeper_failed result) (K.faults keeper.old) }
{
    if batch.is_empty() {
        return Ok(());
    }
    match keeper.append(group, batch) {
        Ok(()) => Ok(()),
        Err(fault) => {
            state.forget(group);
            Err(Refusal::from(fault))
        }
    }
}

/// The reply to a request that nothing refuses before the keeper is asked. Its new messages are kept then.
pub(crate) fn keep<K: Keeper>(
    alloc: Global,
    state: &mut ServerState,
    keeper: &mut K,
    request: &SyncRequest,
) -> Result<Items<u8>, Refusal>
    requires valid { AreMessages request.now.messages }
    requires agrees { K.tells keeper.old → Agrees state.old (K.contents keeper.old) }
    ensures agrees { K.tells keeper.new → Agrees state.new (K.contents keeper.new) }
    ensures kept { (found : Found) × HasKept request.now found state.old state.new (K.tells keeper.old) (K.tells keeper.new) (K.contents keeper.old) (K.contents keeper.new) (K.left keeper.old) (K.left keeper.new) result }
    ensures count { K.faults keeper.new ≡ count_after (keeper_failed result) (K.faults keeper.old) }
{
    check_group(alloc, keeper, request)?;
    let prepared = prepare(alloc, state, keeper, request)?;
    commit(state, keeper, &request.group, &prepared.batch)?;
    Ok(prepared.reply)
}
