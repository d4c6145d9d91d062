//! Bytes in a room that was reserved for them.
ghost use Rattle.std.specs.Prelude.{◌≡◌, ◌≤◌, ◌-◌, ◌++◌, [], length, IfOk};

use field_values::NoMemory;
use std::alloc::Global;
use std::marker::Model;

/// Bytes that were written into a room which was reserved when it was made.
///
/// To a contract it is the bytes that were taken, and the size of the room.
#[derive(Debug, Drop)]
pub struct Room {
    bytes: Vec<u8>,
    size: usize,
}

impl Model for Room {
    ghost use Rattle.std.specs.Prelude.{◌≤◌, vec_len, vec_capacity};
    ghost use Rattle.budget_ports.specs.MemoryDoor.{RoomState};

    ghost Value = { RoomState };

    ghost view = { λ r. record { taken = r.bytes.items; size = r.size } };

    ghost invariant = { λ r. record { within : vec_len r.bytes ≤ r.size; reserved : r.size ≤ vec_capacity r.bytes } };
}

impl Room {
    /// A room for this many bytes, in which nothing is.
    pub fn reserve(alloc: Global, size: usize) -> Result<Room, NoMemory>
        ensures { IfOk result (λ r. r ≡ record { taken = []; size = size }) }
    {
        let bytes = Vec::with_capacity(alloc, size)?;
        Ok(Room { bytes, size })
    }

    /// How many more bytes find room.
    pub fn space(&self) -> usize
        ensures { result ≡ self.now.size - length self.now.taken }
    {
        self.size - self.bytes.len()
    }

    /// Puts bytes behind those that it has.
    pub fn put(&mut self, bytes: &[u8])
        requires { length bytes.now ≤ self.old.size - length self.old.taken }
        ensures { self.new ≡ record { taken = self.old.taken ++ bytes.now; size = self.old.size } }
    {
        self.bytes.extend_from_slice(bytes).unwrap();
    }

    /// The bytes, in order.
    pub fn taken(&self) -> &[u8]
        ensures { result.now ≡ self.now.taken }
    {
        self.bytes.as_slice()
    }
}
