//! Bytes of a message as a text.
ghost use Rattle.std.specs.Prelude.{◌≡◌, ◌≢◌, ◌≤◌, length, IfErr, None, []};
ghost use Rattle.sync_wire.specs.Reading.{Gives, answer};
ghost use Rattle.sync_wire.specs.Meaning.{text_fault};
ghost use Rattle.sync_wire.specs.declared.fault.WireFault.TheVariants.{NoMemory as OutOfMemory};

use crate::fault::WireFault;
use field_values::Txt;
use std::alloc::Global;
use std::str;

/// The bytes that end at this place, as a text.
pub(crate) fn text_at(end: usize, bytes: &[u8]) -> Result<&str, WireFault>
    requires { length bytes.now ≤ end }
    ensures value { Gives (λ t. t.now) result (answer (text_fault end bytes.now) bytes.now) }
    ensures memory { IfErr result (λ e. e ≢ OutOfMemory) }
{
    match str::from_utf8(bytes) {
        Ok(text) => Ok(text),
        Err(e) => Err(WireFault::NotUtf8 {
            at: end - (bytes.len() - e.valid_up_to()),
        }),
    }
}

/// A copy of the bytes that end at this place, as a text.
pub(crate) fn text_of(alloc: Global, end: usize, bytes: &[u8]) -> Result<Txt, WireFault>
    requires { length bytes.now ≤ end }
    ensures value { Gives (λ t. t) result (answer (text_fault end bytes.now) bytes.now) }
    ensures memory { IfErr result (λ e. e ≡ OutOfMemory → text_fault end bytes.now ≡ None) }
{
    let text = text_at(end, bytes)?;
    Ok(Txt::from_text(alloc, text)?)
}

/// A text without a byte.
pub(crate) fn no_text(alloc: Global) -> Txt
    ensures { result ≡ [] }
{
    Txt::new(String::new(alloc))
}
