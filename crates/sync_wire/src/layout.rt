//! Which fields a message knows.
ghost use Rattle.std.specs.Prelude.{◌≡◌};
ghost use Rattle.sync_wire.specs.Layouts.{wanted_type, allows};

/// The kinds of messages of the wire.
#[derive(Clone, Copy, Debug, PartialEq, Eq)]
pub enum Layout {
    /// A request: envelopes 1, file 2, group 3, key 5, since 6.
    Request,
    /// The reply to one: envelopes 1, trie 2.
    Response,
    /// An envelope: timestamp 1, whether it is encrypted 2, content 3.
    Envelope,
    /// The content of an envelope: dataset 1, row 2, column 3, value 4.
    Content,
}

/// The type that a known field has.
fn wanted_type(layout: Layout, number: u64) -> Option<u64>
    ensures { result ≡ wanted_type layout number }
{
    match layout {
        Layout::Request => {
            if number == 1 || number == 2 || number == 3 || number == 5 || number == 6 {
                Some(2)
            } else {
                None
            }
        }
        Layout::Response => {
            if number == 1 || number == 2 {
                Some(2)
            } else {
                None
            }
        }
        Layout::Envelope => {
            if number == 2 {
                Some(0)
            } else if number == 1 || number == 3 {
                Some(2)
            } else {
                None
            }
        }
        Layout::Content => {
            if number == 1 || number == 2 || number == 3 || number == 4 {
                Some(2)
            } else {
                None
            }
        }
    }
}

/// May a field of this number and type stand in the message?
pub(crate) fn allows(layout: Layout, number: u64, kind: u64) -> bool
    ensures { result ≡ allows layout number kind }
{
    if number == 0 {
        return false;
    }
    match wanted_type(layout, number) {
        Some(wanted) => kind == wanted,
        None => kind < 3 || kind == 5,
    }
}
