//! What a link takes, in other words.
ghost use Rattle.peer_link.specs.Laws.{DevicesAsk};

/// A law: what a device sends for the group `home` of the file `home`, under the token `local`, is a request for the server's group,
/// where it asks from a text on that isn't empty; so it is none of those that a link refuses.
pub fn devices_ask()
    ensures { DevicesAsk }
{}
