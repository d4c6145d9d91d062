//! What the words of the command line can ask for.
ghost use Rattle.std.specs.Prelude.{◌≡◌, IfOk};
ghost use Rattle.budget_top.specs.Words.{fault_name};

use field_values::{NoMemory, Txt};
use hybrid_clock::{Node, NodeFault};

/// What a run is to do.
#[derive(Clone, Copy, Debug, PartialEq, Eq)]
pub enum Mode {
    /// Merges the message lines of the source.
    Merge,
    /// Answers the lines of the source as a device.
    Device,
    /// Answers the requests of devices, one connection after the other.
    Serve,
    /// Generates a household's book, and tells what a device tells of it.
    Generate,
    /// Answers the lines of the source as a world of devices and one server.
    World,
}

/// What the words ask for.
#[derive(Debug, Drop)]
pub struct Plan {
    /// What the run is to do.
    pub mode: Mode,
    /// The path of the store, or none where memory serves.
    pub store: Option<Txt>,
    /// The node of this device; a run of a device has one.
    pub node: Option<Node>,
    /// The token by which a server knows a device.
    pub token: Txt,
    /// The file of a household's data that a server keeps.
    pub file: Txt,
    /// The group of that file.
    pub group: Txt,
    /// How many connections a server takes, from 1 to 1,000,000, or of how many transactions a book is generated, from 1 to
    /// 100,000.
    pub count: u32,
    /// The address to listen on.
    pub listen: Txt,
    /// The address of the server.
    pub peer: Txt,
}

/// Why words are refused.
#[derive(Clone, Copy, Debug, PartialEq, Eq)]
pub enum WordFault {
    /// The words are not one mode word and options, each at most once.
    Words,
    /// The mode word is none of `merge`, `device`, `serve`, `generate` and `world`.
    Mode,
    /// A device has no node.
    NodeMissing,
    /// The node is none.
    Node(NodeFault),
    /// The count is not a number from 1 to 1,000,000, of `generate` from 1 to 100,000, in its plain digits.
    Count,
    /// The token is not one to sixty-four of `0-9A-Za-z_-`.
    Token,
    /// The file or the group is not one to sixty-four of `0-9A-Za-z_-`.
    Name,
    /// Memory ran out.
    NoMemory,
}

impl From<NoMemory> for WordFault {
    ghost use Rattle.budget_top.specs.declared.words.WordFault.TheVariants.{NoMemory as OutOfMemory};

    ghost from_gives = { λ _ e. e ≡ OutOfMemory };

    fn from(_error: NoMemory) -> WordFault {
        WordFault::NoMemory
    }
}

impl Plan {
    /// A plan that asks for the same.
    pub fn copy(&self) -> Result<Plan, NoMemory>
        ensures { IfOk result (λ plan. plan ≡ self.now) }
    {
        let store = match &self.store {
            Some(path) => Some(path.copy()?),
            None => None,
        };
        Ok(Plan {
            mode: self.mode,
            store,
            node: self.node,
            token: self.token.copy()?,
            file: self.file.copy()?,
            group: self.group.copy()?,
            count: self.count,
            listen: self.listen.copy()?,
            peer: self.peer.copy()?,
        })
    }
}

impl WordFault {
    /// Its name, without what it holds.
    pub fn name(self) -> &'static str
        ensures { result.now ≡ fault_name self }
    {
        match self {
            WordFault::Words => "Words",
            WordFault::Mode => "Mode",
            WordFault::NodeMissing => "NodeMissing",
            WordFault::Node(_) => "Node",
            WordFault::Count => "Count",
            WordFault::Token => "Token",
            WordFault::Name => "Name",
            WordFault::NoMemory => "NoMemory",
        }
    }
}
