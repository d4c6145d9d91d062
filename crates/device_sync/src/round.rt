//! One round of a sync.
ghost use Rattle.std.specs.Prelude.{◌≡◌, ◌⊎◌, ◌∷◌, [], IfOk, OnErr, false};
ghost use Rattle.budget_ports.specs.Exchanges.{Adds, ended};
ghost use Rattle.budget_ports.specs.Contents.{Contents};
ghost use Rattle.budget_ports.specs.Faults.{count_after};
ghost use Rattle.budget_ports.specs.Keeper.{has_failed, IsAlone};
ghost use Rattle.field_merge.specs.Messages.{AreMessages};
ghost use Rattle.minute_trie.specs.Trie.{held};
ghost use Rattle.sync_wire.specs.Wire.{IsRequest};
ghost use Rattle.sync_wire.specs.Canon.{request_bytes};
ghost use Rattle.device_sync.specs.Requests.{request_of};
ghost use Rattle.device_sync.specs.Replies.{answer};
ghost use Rattle.device_sync.specs.Judged.{got_of, messages_in};
ghost use Rattle.device_sync.specs.Talk.{trie_in};
ghost use Rattle.device_sync.specs.Sync.{told, text_of, KeepsOrNot, IsUnanswered, IsLeft, AreCompared, IsSettled, HasMoment, IsRound, Carries, kept_of, fails_link, fails_keeper, IfUsable};

use crate::fault::SyncFault;
use crate::reply::{Judged, judge};
use crate::request::request_text;
use crate::store::take;
use crate::target::Target;
use budget_ports::{Keeper, Link, PortFault};
use device_core::Device;
use field_merge::Message;
use field_values::{NoMemory, Steps, Txt};
use minute_trie::Trie;
use std::alloc::Global;
use std::sync::ledger::Ledger;
use sync_wire::SyncRequest;

/// How the device's trie compares with the server's.
#[derive(Clone, Copy, Debug, PartialEq, Eq)]
pub(crate) enum Compared {
    /// Both have one hash at the root.
    Agreed,
    /// They have two, and differ from a moment on, in milliseconds since 1970.
    Differ { moment: u64, mine: i32, theirs: i32 },
}

/// Compares the device's trie with a server's.
fn compare(device: &Device, trie: &Trie) -> Compared
    requires { device.now.spent ≡ false }
    ensures compared { AreCompared (trie_in device.now.state) (held trie.now) result }
    ensures moment { HasMoment result }
{
    let own = device.trie();
    match own.diff(trie) {
        None => Compared::Agreed,
        Some(moment) => Compared::Differ {
            moment,
            mine: own.root(),
            theirs: trie.root(),
        },
    }
}

/// The text of the request that asks from a text on.
fn ask(alloc: Global, device: &Device, target: &Target, since: &Txt) -> Result<Vec<u8>, NoMemory>
    requires { device.now.spent ≡ false }
    ensures text { IfOk result (λ text. text.items ≡ text_of target.now since.now device.now.state) }
    ensures means { IfOk result (λ _. IsRequest (request_bytes (request_of target.now since.now device.now.state.messages)) (request_of target.now since.now device.now.state.messages)) }
{
    let request = SyncRequest {
        messages: device.outgoing(since.bytes())?,
        encrypted: false,
        file: target.file.copy()?,
        group: target.group.copy()?,
        since: since.copy()?,
    };
    request_text(alloc, &target.token, &request)
}

/// Sends a text, and gives what comes back for it.
fn exchange<L: Link>(link: &mut L, text: &[u8]) -> Result<Vec<u8>, PortFault>
    ensures ok { IfOk result (λ came. Adds (L.exchanges link.old) (L.exchanges link.new) (ended text.now came.items ∷ [])) }
    ensures err { OnErr result (IsLeft text.now (L.exchanges link.old) (L.exchanges link.new) IsUnanswered) }
    ensures count { L.faults link.new ≡ count_after (has_failed result) (L.faults link.old) }
{
    match link.send(text) {
        Ok(()) => link.receive(),
        Err(fault) => Err(fault),
    }
}

/// Receives the messages of an answer, keeps the new ones, and compares the tries then.
fn join_answer<K: Keeper, G: Ledger>(
    device: &mut Device,
    keeper: &mut K,
    group: &Txt,
    messages: &[Message],
    trie: &Trie,
    reading: u64,
    steps: &mut Steps<G>,
) -> Result<Compared, SyncFault>
    requires live { device.old.spent ≡ false }
    requires idle { device.old.batch ≡ [] }
    requires valid { AreMessages messages.now }
    ensures settled { IsSettled device.old.state (answer messages.now (held trie.now)) reading device.new.state result }
    ensures moment { IfOk result HasMoment }
    ensures usable { IfUsable result ((device.new.spent ≡ false) × (device.new.batch ≡ [])) }
    ensures carries { K.tells keeper.new → Carries group.now device.old.state.messages (kept_of device.old.state.messages device.new.state.messages result) (K.contents keeper.old) (K.contents keeper.new) }
    ensures texts { K.tells keeper.new → (K.contents keeper.new).texts ≡ (K.contents keeper.old).texts }
    ensures alone { IfUsable result (IsAlone (K.tells keeper.old) (K.contents keeper.old) (K.left keeper.old) → IsAlone (K.tells keeper.new) (K.contents keeper.new) (K.left keeper.new)) }
    ensures stops { OnErr result (IsAlone (K.tells keeper.old) (K.contents keeper.old) (K.left keeper.old) → (c : Contents) → K.left keeper.new c → K.tells keeper.old × KeepsOrNot group.now device.old.state (answer messages.now (held trie.now)) reading (K.contents keeper.old) c) }
    ensures before { (k : Contents) → K.left keeper.new k → K.left keeper.old k ⊎ K.tells keeper.old }
    ensures told { K.tells keeper.new → K.tells keeper.old }
    ensures count { K.faults keeper.new ≡ count_after (fails_keeper result) (K.faults keeper.old) }
{
    match take(device, keeper, group, messages, reading, steps) {
        Ok(()) => Ok(compare(device, trie)),
        Err(fault) => Err(fault),
    }
}

/// Does what a reply that was judged asks for.
fn settle<K: Keeper, G: Ledger>(
    device: &mut Device,
    keeper: &mut K,
    group: &Txt,
    reply: &Judged,
    reading: u64,
    steps: &mut Steps<G>,
) -> Result<Compared, SyncFault>
    requires live { device.old.spent ≡ false }
    requires idle { device.old.batch ≡ [] }
    requires valid { AreMessages (messages_in reply.now) }
    ensures settled { IsSettled device.old.state (got_of reply.now) reading device.new.state result }
    ensures moment { IfOk result HasMoment }
    ensures usable { IfUsable result ((device.new.spent ≡ false) × (device.new.batch ≡ [])) }
    ensures carries { K.tells keeper.new → Carries group.now device.old.state.messages (kept_of device.old.state.messages device.new.state.messages result) (K.contents keeper.old) (K.contents keeper.new) }
    ensures texts { K.tells keeper.new → (K.contents keeper.new).texts ≡ (K.contents keeper.old).texts }
    ensures alone { IfUsable result (IsAlone (K.tells keeper.old) (K.contents keeper.old) (K.left keeper.old) → IsAlone (K.tells keeper.new) (K.contents keeper.new) (K.left keeper.new)) }
    ensures stops { OnErr result (IsAlone (K.tells keeper.old) (K.contents keeper.old) (K.left keeper.old) → (c : Contents) → K.left keeper.new c → K.tells keeper.old × KeepsOrNot group.now device.old.state (got_of reply.now) reading (K.contents keeper.old) c) }
    ensures before { (k : Contents) → K.left keeper.new k → K.left keeper.old k ⊎ K.tells keeper.old }
    ensures told { K.tells keeper.new → K.tells keeper.old }
    ensures count { K.faults keeper.new ≡ count_after (fails_keeper result) (K.faults keeper.old) }
{
    match reply {
        Judged::Answer { messages, trie } => join_answer(
            device,
            keeper,
            group,
            messages.as_slice(),
            trie,
            reading,
            steps,
        ),
        Judged::Refusal { status } => Err(SyncFault::Refused { status: *status }),
        Judged::Bad { at } => Err(SyncFault::BadReply { at: *at }),
    }
}

/// Takes one turn: sends the request that asks from a text on, judges the reply, receives and keeps its messages, and compares the tries.
pub(crate) fn round<K: Keeper, L: Link, G: Ledger>(
    alloc: Global,
    device: &mut Device,
    keeper: &mut K,
    link: &mut L,
    group: &Txt,
    target: &Target,
    reading: u64,
    steps: &mut Steps<G>,
    since: &Txt,
) -> Result<Compared, SyncFault>
    requires live { device.old.spent ≡ false }
    requires idle { device.old.batch ≡ [] }
    ensures round { IsRound target.now group.now reading since.now device.old.state (told (L.exchanges link.old) (K.tells keeper.old) (K.contents keeper.old) (K.left keeper.old)) (told (L.exchanges link.new) (K.tells keeper.new) (K.contents keeper.new) (K.left keeper.new)) device.new.state result }
    ensures moment { IfOk result HasMoment }
    ensures usable { IfUsable result ((device.new.spent ≡ false) × (device.new.batch ≡ [])) }
    ensures carries { K.tells keeper.new → Carries group.now device.old.state.messages (kept_of device.old.state.messages device.new.state.messages result) (K.contents keeper.old) (K.contents keeper.new) }
    ensures texts { K.tells keeper.new → (K.contents keeper.new).texts ≡ (K.contents keeper.old).texts }
    ensures alone { IfUsable result (IsAlone (K.tells keeper.old) (K.contents keeper.old) (K.left keeper.old) → IsAlone (K.tells keeper.new) (K.contents keeper.new) (K.left keeper.new)) }
    ensures before { (k : Contents) → K.left keeper.new k → K.left keeper.old k ⊎ K.tells keeper.old }
    ensures told { K.tells keeper.new → K.tells keeper.old }
    ensures count { K.faults keeper.new ≡ count_after (fails_keeper result) (K.faults keeper.old) }
    ensures link_count { L.faults link.new ≡ count_after (fails_link result) (L.faults link.old) }
{
    let text = match ask(alloc, device, target, since) {
        Ok(text) => text,
        Err(_) => return Err(SyncFault::NoMemory),
    };
    let came = match exchange(link, &text) {
        Ok(came) => came,
        Err(PortFault::Failed) => return Err(SyncFault::Link),
        Err(PortFault::NoMemory) => return Err(SyncFault::NoMemory),
    };
    match judge(alloc, &came) {
        Ok(reply) => settle(device, keeper, group, &reply, reading, steps),
        Err(_) => Err(SyncFault::NoMemory),
    }
}
