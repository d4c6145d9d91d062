//! One line of a device: what it asks is done, and what it made is kept before it is answered.
ghost use Rattle.std.specs.Prelude.{◌≡◌, ◌≢◌, ◌⊎◌, ◌∷◌, [], ℕ, List, Ok, Err, IfOk, IfErr, IfSome, IsSome, IsUtf8, OnOk, OnErr, IsErrOf, true, false};
ghost use Rattle.field_merge.specs.declared.message.Message.{Message};
ghost use Rattle.field_merge.specs.Messages.{IsMessage};
ghost use Rattle.device_core.specs.Edits.{IsEdit};
ghost use Rattle.device_core.specs.Accepting.{Brings};
ghost use Rattle.device_core.specs.Device.{edited, undone, redone, received};
ghost use Rattle.command_lines.specs.Commands.{IsRead, IsCommand};
ghost use Rattle.command_lines.specs.Readings.{IsReading};
ghost use Rattle.command_lines.specs.declared.command.CommandFault.TheVariants.{NoMemory as OutOfMemory};
ghost use Rattle.budget_ports.specs.Faults.{count_after};
ghost use Rattle.budget_ports.specs.Contents.{Contents};
ghost use Rattle.budget_ports.specs.Keeper.{has_failed, IsAlone};
ghost use Rattle.budget_ports.specs.declared.keeper.PortFault.TheVariants.{Failed as HasFailed};
ghost use Rattle.budget_top.specs.Session.{asked_kept_line, settled, wrote_all, added_all, obeyed, is_refused};
ghost use Rattle.budget_top.specs.Doing.{IsPlain};
ghost use Rattle.budget_top.specs.Seen.{device_group};
ghost use Rattle.budget_top.specs.Handling.{IsHandled, IsAnswered, IsUnanswered, Carries, CarriesEither};

use crate::begun::Begun;
use crate::sync_line::sync_line;
use budget_ports::{Keeper, Link, PortFault};
use command_lines::{
    Command, CommandFault, Reply, added_reply, faulty_reply, read_command, read_reply,
    refusal_reply, reply_text, wrote_reply,
};
use device_core::{Device, Edit, accepted_are_joined};
use device_sync::Target;
use field_merge::Message;
use field_values::{NoMemory, Steps, Txt, TxtFault};
use kept_messages::{batches_are_kept, new_ones_are_added};
use std::alloc::Global;
use std::slice;
use std::sync::ledger::Ledger;
use world_lines::month_to_cover;

/// The reply to a line.
#[derive(Drop)]
pub struct Answer {
    pub text: Txt,
    /// Whether it refuses the line.
    pub refused: bool,
}

/// The command of a line, or the index of its first word that is not of its form: 0 for a line that
/// is too long or no UTF-8.
fn ask(alloc: Global, line: &Begun) -> Result<Command, CommandFault>
    ensures read { IsRead (asked_kept_line line.now) result }
    ensures valid { IfOk result IsCommand }
    ensures memory { result ≡ Err OutOfMemory → IfSome line.now IsUtf8 × IsSome line.now }
{
    let Some(bytes) = line.bytes() else {
        return Err(CommandFault::BadCommand { word: 0 });
    };
    match Txt::make(alloc, bytes) {
        Ok(text) => read_command(alloc, &text),
        Err(TxtFault::NotUtf8 { .. }) => Err(CommandFault::BadCommand { word: 0 }),
        Err(TxtFault::NoMemory) => Err(CommandFault::NoMemory),
    }
}

/// Makes an edit, and gives the reply.
fn make<G: Ledger>(
    alloc: Global,
    device: &mut Device,
    steps: &mut Steps<G>,
    reading: u64,
    edit: &Edit,
) -> Result<Reply, NoMemory>
    requires live { device.old.spent ≡ false }
    requires idle { device.old.batch ≡ [] }
    requires valid { IsEdit edit.now }
    ensures ok { IfOk result (λ reply. settled device.old.state wrote_all (edited device.old.state edit.now reading) ≡ (device.new.state, reply)) }
    ensures live { OnOk result (device.new.spent ≡ false) }
    ensures brings { OnOk result (Brings device.old.state.messages device.new) }
{
    accepted_are_joined();
    match device.prepare(edit, reading, steps) {
        Ok(count) => wrote_reply(alloc, count, device.made()),
        Err(refusal) => refusal_reply(alloc, &refusal),
    }
}

/// Undoes the latest edit or redo that was not undone, and gives the reply.
fn undo<G: Ledger>(
    alloc: Global,
    device: &mut Device,
    steps: &mut Steps<G>,
    reading: u64,
) -> Result<Reply, NoMemory>
    requires live { device.old.spent ≡ false }
    requires idle { device.old.batch ≡ [] }
    ensures ok { IfOk result (λ reply. settled device.old.state wrote_all (undone device.old.state reading) ≡ (device.new.state, reply)) }
    ensures live { OnOk result (device.new.spent ≡ false) }
    ensures brings { OnOk result (Brings device.old.state.messages device.new) }
{
    accepted_are_joined();
    match device.undo(reading, steps) {
        Ok(count) => wrote_reply(alloc, count, device.made()),
        Err(refusal) => refusal_reply(alloc, &refusal),
    }
}

/// Redoes what was undone last, and gives the reply.
fn redo<G: Ledger>(
    alloc: Global,
    device: &mut Device,
    steps: &mut Steps<G>,
    reading: u64,
) -> Result<Reply, NoMemory>
    requires live { device.old.spent ≡ false }
    requires idle { device.old.batch ≡ [] }
    ensures ok { IfOk result (λ reply. settled device.old.state wrote_all (redone device.old.state reading) ≡ (device.new.state, reply)) }
    ensures live { OnOk result (device.new.spent ≡ false) }
    ensures brings { OnOk result (Brings device.old.state.messages device.new) }
{
    accepted_are_joined();
    match device.redo(reading, steps) {
        Ok(count) => wrote_reply(alloc, count, device.made()),
        Err(refusal) => refusal_reply(alloc, &refusal),
    }
}

/// Receives a message, and gives the reply.
fn receive<G: Ledger>(
    alloc: Global,
    device: &mut Device,
    steps: &mut Steps<G>,
    reading: u64,
    message: &Message,
) -> Result<Reply, NoMemory>
    requires live { device.old.spent ≡ false }
    requires idle { device.old.batch ≡ [] }
    requires valid { IsMessage message.now }
    ensures ok { IfOk result (λ reply. settled device.old.state added_all (received device.old.state (message.now ∷ []) reading) ≡ (device.new.state, reply)) }
    ensures live { OnOk result (device.new.spent ≡ false) }
    ensures brings { OnOk result (Brings device.old.state.messages device.new) }
{
    accepted_are_joined();
    match device.incoming(slice::from_ref(message), reading, steps) {
        Ok(count) => added_reply(alloc, count),
        Err(refusal) => refusal_reply(alloc, &refusal),
    }
}

/// Covers the month of whose cells a command asks, where it is near to those that are covered.
fn cover_asked<G: Ledger>(
    device: &mut Device,
    steps: &mut Steps<G>,
    command: &Command,
) -> Result<(), NoMemory>
    requires { device.old.spent ≡ false }
    ensures state { OnOk result (device.new.state ≡ device.old.state) }
    ensures batch { OnOk result (device.new.batch ≡ device.old.batch) }
    ensures live { OnOk result (device.new.spent ≡ false) }
{
    match month_to_cover(device, command) {
        Some(month) => device.cover(month, steps),
        None => Ok(()),
    }
}

/// Answers a command that only reads. A device of which nothing is pending stays one that has brought nothing.
///
/// The month of whose cells a command asks is covered first, so that what is computed for the answer is kept, and a later line about that
/// month reads it. A month that is far from those that are covered isn't: all months between them would be covered too, and each later
/// edit would pay for them. Its cells are computed, and not kept. The answer is the same.
fn read<G: Ledger>(
    alloc: Global,
    device: &mut Device,
    steps: &mut Steps<G>,
    command: &Command,
) -> Result<Reply, NoMemory>
    requires live { device.old.spent ≡ false }
    requires idle { device.old.batch ≡ [] }
    requires reads { IsReading command.now }
    ensures ok { IfOk result (λ reply. (reading : ℕ) → obeyed device.old.state reading (Ok command.now) ≡ (device.new.state, reply)) }
    ensures live { OnOk result (device.new.spent ≡ false) }
    ensures brings { OnOk result (Brings device.old.state.messages device.new) }
{
    cover_asked(device, steps, command)?;
    read_reply(alloc, device, command)
}

/// Does what a command asks that talks to no server, and gives the reply.
fn obey<G: Ledger>(
    alloc: Global,
    device: &mut Device,
    steps: &mut Steps<G>,
    reading: u64,
    command: &Command,
) -> Result<Reply, NoMemory>
    requires live { device.old.spent ≡ false }
    requires idle { device.old.batch ≡ [] }
    requires valid { IsCommand command.now }
    requires plain { IsPlain (Ok command.now) }
    ensures ok { IfOk result (λ reply. obeyed device.old.state reading (Ok command.now) ≡ (device.new.state, reply)) }
    ensures live { OnOk result (device.new.spent ≡ false) }
    ensures brings { OnOk result (Brings device.old.state.messages device.new) }
{
    match command {
        Command::Edit(edit) => make(alloc, device, steps, reading, edit),
        Command::Undo => undo(alloc, device, steps, reading),
        Command::Redo => redo(alloc, device, steps, reading),
        Command::Receive { message } => receive(alloc, device, steps, reading, message),
        Command::Sync => unreachable!(),
        other => read(alloc, device, steps, other),
    }
}

/// Does what a line asks, by its command or by the index of its first word that is not of its form, and gives the reply.
fn reply_to<G: Ledger>(
    alloc: Global,
    device: &mut Device,
    steps: &mut Steps<G>,
    reading: u64,
    asked: &Result<Command, u32>,
) -> Result<Reply, NoMemory>
    requires live { device.old.spent ≡ false }
    requires idle { device.old.batch ≡ [] }
    requires valid { IfOk asked.now IsCommand }
    requires plain { IsPlain asked.now }
    ensures ok { IfOk result (λ reply. obeyed device.old.state reading asked.now ≡ (device.new.state, reply)) }
    ensures live { OnOk result (device.new.spent ≡ false) }
    ensures brings { OnOk result (Brings device.old.state.messages device.new) }
{
    match asked {
        Ok(command) => obey(alloc, device, steps, reading, command),
        Err(word) => faulty_reply(alloc, *word),
    }
}

/// Keeps the records of the device's new messages, if there are any.
fn keep<K: Keeper>(device: &mut Device, keeper: &mut K, group: &Txt) -> Result<(), PortFault>
    requires live { device.old.spent ≡ false }
    requires group { group.now ≡ device_group }
    ensures ok { OnOk result (device.new ≡ record device.old { batch = [] }) }
    ensures carries { K.tells keeper.new → OnOk result ((old : List Message) → Brings old device.old → Carries old device.old.state.messages (K.contents keeper.old) (K.contents keeper.new)) }
    ensures alone { OnOk result (IsAlone (K.tells keeper.old) (K.contents keeper.old) (K.left keeper.old) → IsAlone (K.tells keeper.new) (K.contents keeper.new) (K.left keeper.new)) }
    ensures same { K.tells keeper.new → OnErr result (K.contents keeper.new ≡ K.contents keeper.old) }
    ensures new { IsErrOf result HasFailed → device.old.batch ≢ [] }
    ensures stops { OnErr result (IsAlone (K.tells keeper.old) (K.contents keeper.old) (K.left keeper.old) → (c : Contents) → K.left keeper.new c → (old : List Message) → Brings old device.old → K.tells keeper.old × CarriesEither old device.old.state.messages (K.contents keeper.old) c) }
    ensures told { K.tells keeper.new → K.tells keeper.old }
    ensures before { (k : Contents) → K.left keeper.new k → K.left keeper.old k ⊎ K.tells keeper.old }
    ensures count { K.faults keeper.new ≡ count_after (has_failed result) (K.faults keeper.old) }
{
    // A device's messages are valid, so the records of the new ones keep them.
    batches_are_kept();
    let _log = device.log();
    if !device.batch().is_empty() {
        keeper.append(group, device.batch())?;
        device.commit();
    }
    Ok(())
}

/// Whether a reply refuses its line.
pub(crate) fn is_refusal(reply: &Reply) -> bool
    ensures { result ≡ is_refused reply.now }
{
    matches!(reply, Reply::Refused { .. })
}

/// Does what a line asks that talks to no server, keeps what it made, and gives its reply.
///
/// The reply's text is made before anything is kept. Where the keeper fails or memory runs out
/// there is no reply, the device is not to be used any more, and the keeper holds what it held; a
/// stop may leave that with all that the line made.
fn answer_line<K: Keeper, G: Ledger>(
    alloc: Global,
    device: &mut Device,
    keeper: &mut K,
    group: &Txt,
    steps: &mut Steps<G>,
    reading: u64,
    asked: &Result<Command, u32>,
) -> Result<Answer, PortFault>
    requires live { device.old.spent ≡ false }
    requires idle { device.old.batch ≡ [] }
    requires group { group.now ≡ device_group }
    requires valid { IfOk asked.now IsCommand }
    requires plain { IsPlain asked.now }
    ensures plain { IsPlain asked.now }
    ensures ok { IfOk result (λ a. IsHandled (obeyed device.old.state reading asked.now) device.new.state a.text a.refused) }
    ensures live { OnOk result (device.new.spent ≡ false) }
    ensures idle { OnOk result (device.new.batch ≡ []) }
    ensures carries { K.tells keeper.new → OnOk result (Carries device.old.state.messages (obeyed device.old.state reading asked.now).0.messages (K.contents keeper.old) (K.contents keeper.new)) }
    ensures alone { OnOk result (IsAlone (K.tells keeper.old) (K.contents keeper.old) (K.left keeper.old) → IsAlone (K.tells keeper.new) (K.contents keeper.new) (K.left keeper.new)) }
    ensures same { K.tells keeper.new → OnErr result (K.contents keeper.new ≡ K.contents keeper.old) }
    ensures new { IsErrOf result HasFailed → (obeyed device.old.state reading asked.now).0.messages ≢ device.old.state.messages }
    ensures stops { OnErr result (IsAlone (K.tells keeper.old) (K.contents keeper.old) (K.left keeper.old) → (c : Contents) → K.left keeper.new c → K.tells keeper.old × CarriesEither device.old.state.messages (obeyed device.old.state reading asked.now).0.messages (K.contents keeper.old) c) }
    ensures told { K.tells keeper.new → K.tells keeper.old }
    ensures before { (k : Contents) → K.left keeper.new k → K.left keeper.old k ⊎ K.tells keeper.old }
    ensures count { K.faults keeper.new ≡ count_after (has_failed result) (K.faults keeper.old) }
{
    // A device that has new messages has more of them than before.
    new_ones_are_added();
    let reply = reply_to(alloc, device, steps, reading, asked)?;
    let text = reply_text(alloc, &reply)?;
    keep(device, keeper, group)?;
    Ok(Answer {
        text,
        refused: is_refusal(&reply),
    })
}

/// What a line asks: a command, or the index of its first word that is not of its form.
fn asked_by(alloc: Global, line: &Begun) -> Result<Result<Command, u32>, NoMemory>
    ensures asks { IfOk result (λ asked. asked_kept_line line.now ≡ asked) }
    ensures valid { IfOk result (λ asked. IfOk asked IsCommand) }
{
    match ask(alloc, line) {
        Ok(command) => Ok(Ok(command)),
        Err(CommandFault::BadCommand { word }) => Ok(Err(word)),
        Err(CommandFault::NoMemory) => Err(NoMemory),
    }
}

/// Whether a line asks for a sync.
fn is_sync(asked: &Result<Command, u32>) -> bool
    ensures sync { result ≡ true → asked.now ≡ Ok Command.Sync }
    ensures plain { result ≡ false → IsPlain asked.now }
{
    matches!(asked, Ok(Command::Sync))
}

/// Lets go of what was asked, which takes a case for each command, so nothing stands beside it here.
fn let_go(_asked: Result<Command, u32>) {}

/// Does what was asked at a reading of the wall clock, keeps what it made, and gives its reply.
fn handle<K: Keeper, L: Link, G: Ledger>(
    alloc: Global,
    device: &mut Device,
    keeper: &mut K,
    link: &mut L,
    group: &Txt,
    target: &Target,
    steps: &mut Steps<G>,
    reading: u64,
    asked: &Result<Command, u32>,
) -> Result<Answer, PortFault>
    requires live { device.old.spent ≡ false }
    requires idle { device.old.batch ≡ [] }
    requires group { group.now ≡ device_group }
    requires valid { IfOk asked.now IsCommand }
    ensures answered { IfOk result (λ a. IsAnswered target.now reading asked.now device.old.state device.new.state a.text a.refused (L.exchanges link.old) (L.exchanges link.new) (L.faults link.old) (L.faults link.new) (K.tells keeper.new) (K.contents keeper.old) (K.contents keeper.new)) }
    ensures unanswered { IfErr result (λ fault. IsUnanswered target.now fault reading asked.now device.old.state (L.exchanges link.old) (L.exchanges link.new) (L.faults link.old) (L.faults link.new) (IsAlone (K.tells keeper.old) (K.contents keeper.old) (K.left keeper.old)) (K.tells keeper.old) (K.tells keeper.new) (K.contents keeper.old) (K.contents keeper.new) (K.left keeper.new)) }
    ensures live { OnOk result (device.new.spent ≡ false) }
    ensures idle { OnOk result (device.new.batch ≡ []) }
    ensures alone { OnOk result (IsAlone (K.tells keeper.old) (K.contents keeper.old) (K.left keeper.old) → IsAlone (K.tells keeper.new) (K.contents keeper.new) (K.left keeper.new)) }
    ensures told { K.tells keeper.new → K.tells keeper.old }
    ensures before { (k : Contents) → K.left keeper.new k → K.left keeper.old k ⊎ K.tells keeper.old }
    ensures count { K.faults keeper.new ≡ count_after (has_failed result) (K.faults keeper.old) }
{
    if is_sync(asked) {
        return sync_line(alloc, device, keeper, link, group, target, steps, reading);
    }
    answer_line(alloc, device, keeper, group, steps, reading, asked)
}

/// Does what a line asks at a reading of the wall clock, keeps what it made, and gives its reply.
///
/// Where the keeper fails or memory runs out there is no reply, and the device is not to be used any
/// more.
pub fn handle_line<K: Keeper, L: Link, G: Ledger>(
    alloc: Global,
    device: &mut Device,
    keeper: &mut K,
    link: &mut L,
    group: &Txt,
    target: &Target,
    steps: &mut Steps<G>,
    reading: u64,
    line: &Begun,
) -> Result<Answer, PortFault>
    requires live { device.old.spent ≡ false }
    requires idle { device.old.batch ≡ [] }
    requires group { group.now ≡ device_group }
    ensures answered { IfOk result (λ a. IsAnswered target.now reading (asked_kept_line line.now) device.old.state device.new.state a.text a.refused (L.exchanges link.old) (L.exchanges link.new) (L.faults link.old) (L.faults link.new) (K.tells keeper.new) (K.contents keeper.old) (K.contents keeper.new)) }
    ensures unanswered { IfErr result (λ fault. IsUnanswered target.now fault reading (asked_kept_line line.now) device.old.state (L.exchanges link.old) (L.exchanges link.new) (L.faults link.old) (L.faults link.new) (IsAlone (K.tells keeper.old) (K.contents keeper.old) (K.left keeper.old)) (K.tells keeper.old) (K.tells keeper.new) (K.contents keeper.old) (K.contents keeper.new) (K.left keeper.new)) }
    ensures live { OnOk result (device.new.spent ≡ false) }
    ensures idle { OnOk result (device.new.batch ≡ []) }
    ensures alone { OnOk result (IsAlone (K.tells keeper.old) (K.contents keeper.old) (K.left keeper.old) → IsAlone (K.tells keeper.new) (K.contents keeper.new) (K.left keeper.new)) }
    ensures told { K.tells keeper.new → K.tells keeper.old }
    ensures before { (k : Contents) → K.left keeper.new k → K.left keeper.old k ⊎ K.tells keeper.old }
    ensures count { K.faults keeper.new ≡ count_after (has_failed result) (K.faults keeper.old) }
{
    match asked_by(alloc, line) {
        Ok(asked) => {
            let answer = handle(
                alloc, device, keeper, link, group, target, steps, reading, &asked,
            );
            let_go(asked);
            answer
        }
        Err(NoMemory) => Err(PortFault::NoMemory),
    }
}
