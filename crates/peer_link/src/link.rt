//! The link.
ghost use Rattle.std.specs.Prelude.{◌≡◌, ◌⊎◌, ◌∷◌, [], None, Some, IsErrOf, IfOk, OnOk, OnErr};
ghost use Rattle.budget_ports.specs.Faults.{count_after};
ghost use Rattle.budget_ports.specs.Exchanges.{Adds, Gets, begun};
ghost use Rattle.budget_ports.specs.Keeper.{has_failed};
ghost use Rattle.budget_ports.specs.declared.keeper.PortFault.TheVariants.{Failed as HasFailed};
ghost use Rattle.peer_link.specs.Peer.{IsPeer, HasEnded, AsksGroup, Answers, Receives, IsForeign};

use crate::asked::asks_group;
use crate::server::Server;
use budget_ports::{Link, PortFault};
use field_values::{Items, NoMemory};
use std::alloc::Global;
use std::marker::Model;

/// What was sent, and what came back for it.
#[derive(Drop)]
struct Ended {
    sent: Items<u8>,
    got: Option<Items<u8>>,
}

/// A copy of bytes.
fn copied(alloc: Global, bytes: &[u8]) -> Result<Vec<u8>, NoMemory>
    ensures { IfOk result (λ copy. copy.items ≡ bytes.now) }
{
    Ok(bytes.to_vec(alloc)?)
}

/// A link whose far end is the server itself, over a keeper in memory.
///
/// To a contract it is its exchanges, the messages of the server's group, and how many calls have failed.
#[derive(Drop)]
pub struct PeerLink {
    alloc: Global,
    ended: Vec<Ended>,
    asked: Option<Items<u8>>,
    server: Option<Server>,
    faults: u64,
}

impl Model for PeerLink {
    ghost use Rattle.std.specs.Prelude.{map};
    ghost use Rattle.peer_link.specs.Peer.{PeerState, peer_of, IsLinked};

    ghost Value = { PeerState };

    ghost view = { λ l. peer_of (map (λ e. record { sent = e.sent; got = e.got }) l.ended.items) l.asked l.server l.faults };

    ghost invariant = { λ l. IsLinked (map (λ e. record { sent = e.sent; got = e.got }) l.ended.items) l.asked l.server l.faults };
}

impl PeerLink {
    /// A link to a server whose group is empty.
    pub fn new(alloc: Global) -> Result<PeerLink, NoMemory>
        ensures { IfOk result (λ link. link ≡ record { exchanges = []; messages = Some []; faults = 0 }) }
    {
        Ok(PeerLink {
            alloc,
            ended: Vec::new(alloc),
            asked: None,
            server: Some(Server::new(alloc)?),
            faults: 0,
        })
    }

    /// How many exchanges there are whose bytes came back, or were given up.
    pub fn count(&self) -> usize
        ensures peer { IsPeer self.now }
        ensures ended { HasEnded self.now result }
    {
        self.ended.len()
    }
}

/// What comes back for bytes: where they are the request of a device, and there is a server still, what it replies, and a copy of that.
/// Where it gives no reply, or memory does not suffice for the copy of the reply, the server is lost, since it may have kept what came.
fn answer(
    alloc: Global,
    server: &mut Option<Server>,
    sent: &[u8],
) -> Result<(Items<u8>, Vec<u8>), PortFault>
    ensures answers { IfOk result (λ r. Answers server.old server.new sent.now r.0 × (r.1.items ≡ r.0)) }
    ensures failed { IsErrOf result HasFailed → (server.new ≡ server.old) × ((AsksGroup sent.now → ⊥) ⊎ (server.old ≡ None)) }
    ensures lost { OnErr result ((server.new ≡ server.old) ⊎ (server.new ≡ None)) }
    ensures foreign { OnErr result ((AsksGroup sent.now → ⊥) → server.new ≡ server.old) }
{
    let came = copied(alloc, sent)?;
    if !asks_group(alloc, sent)? {
        return Err(PortFault::Failed);
    }
    let Some(before) = server.take() else {
        return Err(PortFault::Failed);
    };
    match before.serve(alloc, Items::new(came)) {
        Some((after, reply)) => {
            let got = copied(alloc, &reply)?;
            *server = Some(after);
            Ok((Items::new(got), reply))
        }
        None => Err(PortFault::NoMemory),
    }
}

impl Link for PeerLink {
    ghost exchanges = { λ l. Some l.exchanges };

    ghost faults = { λ l. l.faults };

    /// Never fails but for want of memory.
    fn send(&mut self, bytes: &[u8]) -> Result<(), PortFault>
        // what each link promises
        ensures ok { OnOk result (Adds (Some self.old.exchanges) (Some self.new.exchanges) (begun bytes.now ∷ [])) }
        ensures err { OnErr result (Adds (Some self.old.exchanges) (Some self.new.exchanges) []) }
        ensures count { self.new.faults ≡ count_after (has_failed result) self.old.faults }

        // what this one does
        ensures never { IsErrOf result HasFailed → ⊥ }
        ensures messages { self.new.messages ≡ self.old.messages }
    {
        let sent = copied(self.alloc, bytes)?;
        if self.ended.reserve(1).is_err() {
            return Err(PortFault::NoMemory);
        }
        if let Some(earlier) = self.asked.take() {
            let unanswered = Ended {
                sent: earlier,
                got: None,
            };
            self.ended.push(unanswered).unwrap();
        }
        self.asked = Some(Items::new(sent));
        Ok(())
    }

    /// Gives the reply of the server. Fails where nothing was sent that waits for one, where what was sent is no request of a device for the
    /// group, and once an answer was lost.
    fn receive(&mut self) -> Result<Vec<u8>, PortFault>
        // what each link promises
        ensures ok { IfOk result (λ got. Gets (Some self.old.exchanges) (Some self.new.exchanges) got.items) }
        ensures err { OnErr result (Adds (Some self.old.exchanges) (Some self.new.exchanges) []) }
        ensures count { self.new.faults ≡ count_after (has_failed result) self.old.faults }

        // what this one does
        ensures receives { IfOk result (λ got. Receives self.old self.new got.items) }
        ensures failed { IsErrOf result HasFailed → (self.new.messages ≡ self.old.messages) × (IsForeign self.old ⊎ (self.old.messages ≡ None)) }
        ensures lost { OnErr result ((self.new.messages ≡ self.old.messages) ⊎ (self.new.messages ≡ None)) }
        ensures foreign { OnErr result (IsForeign self.old → self.new.messages ≡ self.old.messages) }
    {
        if self.ended.reserve(1).is_err() {
            return Err(PortFault::NoMemory);
        }
        let Some(sent) = self.asked.take() else {
            self.faults = self.faults.saturating_add(1);
            return Err(PortFault::Failed);
        };
        match answer(self.alloc, &mut self.server, sent.as_slice()) {
            Ok((got, reply)) => {
                let exchange = Ended {
                    sent,
                    got: Some(got),
                };
                self.ended.push(exchange).unwrap();
                Ok(reply)
            }
            Err(PortFault::Failed) => {
                self.asked = Some(sent);
                self.faults = self.faults.saturating_add(1);
                Err(PortFault::Failed)
            }
            Err(PortFault::NoMemory) => {
                self.asked = Some(sent);
                Err(PortFault::NoMemory)
            }
        }
    }
}
