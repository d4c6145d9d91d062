//! A link in memory, for tests.
ghost use Rattle.std.specs.Prelude.{◌≡◌, ◌↔◌, ◌||◌, ◌∷◌, [], not, None, Some, IsTrue, IsErrOf, IfOk, OnOk, OnErr, if◌then◌else◌};
ghost use Rattle.std.specs.List.{slice_get};
ghost use Rattle.budget_ports.specs.Faults.{count_after};
ghost use Rattle.budget_ports.specs.Calls.{no_calls, is_listed, failed};
ghost use Rattle.budget_ports.specs.Exchanges.{Adds, Gets, begun};
ghost use Rattle.budget_ports.specs.Script.{exchanges, has_reply, after_one};
ghost use Rattle.budget_ports.specs.Keeper.{has_failed};
ghost use Rattle.budget_ports.specs.KeeperState.{counted};
ghost use Rattle.budget_ports.specs.declared.keeper.PortFault.TheVariants.{Failed as HasFailed};

use crate::calls::Calls;
use crate::keeper::PortFault;
use crate::link::Link;
use crate::stream::Failed;
use field_values::{Items, NoMemory};
use std::alloc::Global;
use std::collections::VecDeque;
use std::marker::Model;

/// What was sent, and what came back for it, if anything did.
#[derive(Drop)]
struct Ended {
    sent: Items<u8>,
    got: Option<Items<u8>>,
}

/// A copy of bytes.
fn copied(alloc: Global, bytes: &[u8]) -> Result<Vec<u8>, NoMemory>
    ensures { IfOk result (λ copy. copy.items ≡ bytes.now) }
{
    Ok(bytes.to_vec(alloc)?)
}

/// Takes the first reply out where another one comes behind it, and copies it where it is the last.
fn next_of(alloc: Global, replies: &mut VecDeque<Items<u8>>) -> Result<Option<Items<u8>>, NoMemory>
    ensures next { IfOk result (λ reply. reply ≡ slice_get replies.old.items 0) }
    ensures left { OnOk result (replies.new.items ≡ after_one replies.old.items) }
    ensures kept { OnErr result (replies.new.items ≡ replies.old.items) }
{
    if replies.len() > 1 {
        return Ok(replies.pop_front());
    }
    match replies.front() {
        Some(last) => Ok(Some(Items::new(copied(alloc, last.as_slice())?))),
        None => Ok(None),
    }
}

/// A link that gives replies which were written before, one after the other, and then the last one
/// again.
///
/// To a contract it is its exchanges, the replies to come, and the calls: their number, those that
/// fail, and how many have failed.
#[derive(Drop)]
pub struct ScriptLink {
    alloc: Global,
    ended: Vec<Ended>,
    asked: Option<Items<u8>>,
    replies: VecDeque<Items<u8>>,
    calls: Calls,
}

impl Model for ScriptLink {
    ghost use Rattle.std.specs.Prelude.{map};
    ghost use Rattle.budget_ports.specs.Script.{LinkState};

    ghost Value = { LinkState };

    ghost view = { λ l. record { ended = map (λ e. record { sent = e.sent; got = e.got }) l.ended.items; asked = l.asked; to_come = l.replies.items; calls = l.calls } };
}

impl ScriptLink {
    /// A link that will give these replies, of which no call is listed to fail. But for want of memory only
    /// a `receive` fails, where nothing was sent since the last one or there are no replies at all.
    pub fn new(alloc: Global, replies: VecDeque<Items<u8>>) -> ScriptLink
        ensures { result ≡ record { ended = []; asked = None; to_come = replies.items; calls = no_calls [] } }
    {
        ScriptLink::with_faults(alloc, replies, Vec::new(alloc))
    }

    /// A link that will give these replies. A call whose number is in `calls` fails; the calls are
    /// numbered from 0 over both methods together.
    pub fn with_faults(alloc: Global, replies: VecDeque<Items<u8>>, calls: Vec<u64>) -> ScriptLink
        ensures { result ≡ record { ended = []; asked = None; to_come = replies.items; calls = no_calls calls.items } }
    {
        ScriptLink {
            alloc,
            ended: Vec::new(alloc),
            asked: None,
            replies,
            calls: Calls::new(calls),
        }
    }
}

impl Link for ScriptLink {
    ghost exchanges = { λ l. Some (exchanges l) };

    ghost faults = { λ l. l.calls.faults };

    /// Fails exactly where the call is listed.
    fn send(&mut self, bytes: &[u8]) -> Result<(), PortFault>
        // what each link promises
        ensures ok { OnOk result (Adds (Some (exchanges self.old)) (Some (exchanges self.new)) (begun bytes.now ∷ [])) }
        ensures err { OnErr result (Adds (Some (exchanges self.old)) (Some (exchanges self.new)) []) }
        ensures count { self.new.calls.faults ≡ count_after (has_failed result) self.old.calls.faults }

        // what this one does
        ensures fails { IsErrOf result HasFailed ↔ IsTrue (is_listed self.old.calls) }
        ensures counts { self.new.calls ≡ counted self.old.calls }
        ensures kept { self.new.to_come ≡ self.old.to_come }
    {
        self.calls.begin(true)?;
        let sent = copied(self.alloc, bytes)?;
        if self.ended.reserve(1).is_err() {
            return Err(PortFault::NoMemory);
        }
        if let Some(earlier) = self.asked.take() {
            let unanswered = Ended {
                sent: earlier,
                got: None,
            };
            self.ended.push(unanswered).unwrap();
        }
        self.asked = Some(Items::new(sent));
        Ok(())
    }

    /// Fails exactly where the call is listed, or no reply can be given.
    fn receive(&mut self) -> Result<Vec<u8>, PortFault>
        // what each link promises
        ensures ok { IfOk result (λ got. Gets (Some (exchanges self.old)) (Some (exchanges self.new)) got.items) }
        ensures err { OnErr result (Adds (Some (exchanges self.old)) (Some (exchanges self.new)) []) }
        ensures count { self.new.calls.faults ≡ count_after (has_failed result) self.old.calls.faults }

        // what this one does
        ensures fails { IsErrOf result HasFailed ↔ IsTrue (is_listed self.old.calls || not (has_reply self.old)) }
        ensures next { IfOk result (λ got. (slice_get self.old.to_come 0 ≡ Some got.items) × (self.new.to_come ≡ after_one self.old.to_come)) }
        ensures kept { OnErr result (self.new.to_come ≡ self.old.to_come) }
        ensures counts { self.new.calls ≡ (if has_reply self.old then counted self.old.calls else failed self.old.calls) }
    {
        let possible = self.asked.is_some() && !self.replies.is_empty();
        self.calls.begin(possible)?;
        let got = match self.replies.front() {
            Some(reply) => copied(self.alloc, reply.as_slice())?,
            None => return Err(PortFault::Failed),
        };
        if self.ended.reserve(1).is_err() {
            return Err(PortFault::NoMemory);
        }
        let reply = next_of(self.alloc, &mut self.replies)?;
        if let Some(sent) = self.asked.take() {
            let exchange = Ended { sent, got: reply };
            self.ended.push(exchange).unwrap();
        }
        Ok(got)
    }
}
