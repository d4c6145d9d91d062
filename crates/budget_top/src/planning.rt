//! Reads the words of the command line.
ghost use Rattle.std.specs.Prelude.{◌≡◌, ◌≢◌, IfOk, IfErr, Ok, Err, IsUtf8, map, option_map, unwrap_or};
ghost use Rattle.std.specs.List.{All};
ghost use Rattle.clap.specs.Words.{first_value, found_of};
ghost use Rattle.budget_top.specs.Words.{IsWordFault, IsPlan, IsNodeFor, IsCountIn, planned, planned_by, plan_with, mode_named, most_of, node_for, count_from, name_or};

use crate::line::line_matches;
use crate::values::{count_of, is_name, most_of};
use crate::words::{Mode, Plan, WordFault};
use clap::ArgMatches;
use field_values::{Items, NoMemory, Txt};
use hybrid_clock::Node;
use std::alloc::Global;

/// The count where none is given.
const COUNT: u32 = 1000;

/// The address where none is given.
const ADDRESS: &str = "127.0.0.1:5006";

/// The mode that a word names.
fn mode_named(word: &str) -> Result<Mode, WordFault>
    ensures { result ≡ mode_named word.now }
{
    match word {
        "merge" => Ok(Mode::Merge),
        "device" => Ok(Mode::Device),
        "serve" => Ok(Mode::Serve),
        "generate" => Ok(Mode::Generate),
        "world" => Ok(Mode::World),
        _ => Err(WordFault::Mode),
    }
}

/// The node, as a run in this mode has it.
fn node_for(mode: Mode, text: Option<&str>) -> Result<Option<Node>, WordFault>
    ensures is { result ≡ node_for mode (option_map (λ t. t.now) text.entry) }
    ensures valid { IfOk result (IsNodeFor mode) }
{
    match text {
        Some(text) => match Node::make(text.as_bytes()) {
            Ok(node) => Ok(Some(node)),
            Err(fault) => Err(WordFault::Node(fault)),
        },
        None => match mode {
            Mode::Device => Err(WordFault::NodeMissing),
            Mode::Merge | Mode::Serve | Mode::Generate | Mode::World => Ok(None),
        },
    }
}

/// The count of a mode, from the text that is given for it.
fn count_from(mode: Mode, text: Option<&str>) -> Result<u32, WordFault>
    ensures is { result ≡ count_from mode (option_map (λ t. t.now) text.entry) }
    ensures within { IfOk result (IsCountIn (most_of mode)) }
{
    match text {
        Some(text) => count_of(text, most_of(mode)).ok_or(WordFault::Count),
        None => Ok(COUNT),
    }
}

/// The text, which has to be a name; else the fault is told.
fn name_or(alloc: Global, fault: WordFault, text: &str) -> Result<Txt, WordFault>
    requires { fault ≢ WordFault.NoMemory }
    ensures ok { IfOk result (λ name. name_or fault text.now ≡ Ok name) }
    ensures err { IfErr result (IsWordFault (name_or fault text.now)) }
{
    if !is_name(text) {
        return Err(fault);
    }
    Ok(Txt::from_text(alloc, text)?)
}

/// The path of a store, where one is given.
fn path_of(alloc: Global, path: Option<&str>) -> Result<Option<Txt>, NoMemory>
    ensures { IfOk result (λ text. text ≡ option_map (λ t. t.now) path.entry) }
{
    match path {
        Some(path) => Ok(Some(Txt::from_text(alloc, path)?)),
        None => Ok(None),
    }
}

/// The plan of a mode with its node and its count, from what else was found in the words.
fn plan_with(
    alloc: Global,
    given: &ArgMatches<'_>,
    mode: Mode,
    node: Option<Node>,
    count: u32,
) -> Result<Plan, WordFault>
    ensures ok { IfOk result (λ plan. plan_with (λ name. first_value (found_of given.now) name) mode node count ≡ Ok plan) }
    ensures err { IfErr result (IsWordFault (plan_with (λ name. first_value (found_of given.now) name) mode node count)) }
    ensures same { IfOk result (λ plan. (plan.mode ≡ mode) × (plan.node ≡ node) × (plan.count ≡ count)) }
{
    let token = given.get_str("token").unwrap_or("local");
    let file = given.get_str("file").unwrap_or("home");
    let group = given.get_str("group").unwrap_or("home");
    let listen = given.get_str("listen").unwrap_or(ADDRESS);
    let peer = given.get_str("peer").unwrap_or(ADDRESS);
    Ok(Plan {
        mode,
        store: path_of(alloc, given.get_str("store"))?,
        node,
        token: name_or(alloc, WordFault::Token, token)?,
        file: name_or(alloc, WordFault::Name, file)?,
        group: name_or(alloc, WordFault::Name, group)?,
        count,
        listen: Txt::from_text(alloc, listen)?,
        peer: Txt::from_text(alloc, peer)?,
    })
}

/// The plan, from what was found in the words.
fn plan_of(alloc: Global, given: &ArgMatches<'_>) -> Result<Plan, WordFault>
    ensures ok { IfOk result (λ plan. planned_by (λ name. first_value (found_of given.now) name) ≡ Ok plan) }
    ensures err { IfErr result (IsWordFault (planned_by (λ name. first_value (found_of given.now) name))) }
    ensures whole { IfOk result IsPlan }
{
    let mode = mode_named(given.get_str("mode").unwrap_or(""))?;
    let node = node_for(mode, given.get_str("node"))?;
    let count = count_from(mode, given.get_str("count"))?;
    plan_with(alloc, given, mode, node, count)
}

/// The words as they are borrowed.
fn texts_of<'a>(alloc: Global, words: &'a [Txt]) -> Result<Vec<&'a str>, NoMemory>
    ensures same { IfOk result (λ texts. map (λ t. t.now) texts.items ≡ words.entry.now) }
    ensures utf8 { IfOk result (λ texts. All (λ t. IsUtf8 t.now) texts.items) }
{
    let mut texts = Vec::with_capacity(alloc, words.len())?;
    for word in words {
        texts.push(word.as_str())?;
    }
    Ok(texts)
}

/// The plan that the words ask for.
///
/// # Errors
///
/// Tested in this order: `Words`, `Mode`, `NodeMissing`, `Node`, `Count`, `Token`, `Name`. Memory
/// can run out before.
pub fn plan(alloc: Global, words: &Items<Txt>) -> Result<Plan, WordFault>
    ensures ok { IfOk result (λ plan. planned words.now ≡ Ok plan) }
    ensures err { IfErr result (IsWordFault (planned words.now)) }
    ensures whole { IfOk result IsPlan }
{
    let texts = texts_of(alloc, words.as_slice())?;
    match line_matches(alloc, texts.as_slice())? {
        Some(given) => plan_of(alloc, &given),
        None => Err(WordFault::Words),
    }
}
