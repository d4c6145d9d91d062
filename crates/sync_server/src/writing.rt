//! Replies, as they are written.
ghost use Rattle.std.specs.Prelude.{◌≡◌, false, IfOk, OnOk, OnErr};
ghost use Rattle.std.specs.Result.{is_err};
ghost use Rattle.field_merge.specs.Messages.{AreMessages};
ghost use Rattle.budget_ports.specs.Connections.{Stays};
ghost use Rattle.budget_ports.specs.Faults.{count_after};
ghost use Rattle.sync_wire.specs.Canon.{response_bytes};
ghost use Rattle.sync_wire.specs.Wire.{IsResponse};
ghost use Rattle.sync_server.specs.Replies.{accepted_bytes};
ghost use Rattle.sync_server.specs.Written.{WritesTo, WritesFront};

use budget_ports::{Door, Failed};
use field_values::{Items, NoMemory};
use std::alloc::Global;
use sync_wire::{SyncResponse, write_response};

/// Writes all of the bytes, in as many pieces as the door takes. Where it fails, a front of them was written.
pub(crate) fn write_all<D: Door>(door: &mut D, bytes: &[u8]) -> Result<(), Failed>
    ensures all { OnOk result (WritesTo (D.outs door.old) (D.outs door.new) bytes.now) }
    ensures front { OnErr result (WritesFront (D.outs door.old) (D.outs door.new) bytes.now) }
    ensures others { Stays (D.waiting door.old) (D.waiting door.new) }
    ensures count { D.faults door.new ≡ count_after (is_err result) (D.faults door.old) }
{
    let mut at = 0;
    while at < bytes.len() {
        at += door.write(&bytes[at..])?;
    }
    Ok(())
}

/// All bytes of the reply to a request that is accepted.
pub(crate) fn accepted(alloc: Global, response: &SyncResponse) -> Result<Items<u8>, NoMemory>
    requires plain { response.now.encrypted ≡ false }
    requires valid { AreMessages response.now.messages }
    ensures bytes { IfOk result (λ bytes. bytes ≡ accepted_bytes (response_bytes response.now)) }
    ensures means { IfOk result (λ _. IsResponse (response_bytes response.now) response.now) }
{
    let body = write_response(alloc, response)?;
    let status: u16 = 200;
    let count = body.len();
    let head = format!(in alloc;
        "HTTP/1.1 {status} OK\r\nContent-Type: application/actual-sync\r\nContent-Length: {count}\r\nConnection: close\r\n\r\n"
    )?;
    let mut bytes = head.into_bytes();
    bytes.extend_from_slice(body.as_slice())?;
    Ok(Items::new(bytes))
}
