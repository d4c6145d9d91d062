use budget_top::{Plan, WordFault, plan};
use field_values::{Items, Txt};
use std::alloc::Global;
use std::str;
use std::test::Fail;

/// Lines of words, each with what it asks for or the fault that is told.
const ROWS: &str = "\
merge > Merge ................ local home home 1000 127.0.0.1:5006 127.0.0.1:5006
merge --count 5 > Merge ................ local home home 5 127.0.0.1:5006 127.0.0.1:5006
device --node aa > Device 00000000000000aa local home home 1000 127.0.0.1:5006 127.0.0.1:5006
--token=-t --file f_ --group=9 --count 1000000 --listen=--a --peer= --node=Z -- device > Device 000000000000000Z -t f_ 9 1000000 --a 
serve > Serve ................ local home home 1000 127.0.0.1:5006 127.0.0.1:5006
world > World ................ local home home 1000 127.0.0.1:5006 127.0.0.1:5006
--count=100000 --node aa generate > Generate 00000000000000aa local home home 100000 127.0.0.1:5006 127.0.0.1:5006
generate x > Words
world --node=- > Node(BadByte { at: 0 })
serve --listen 0.0.0.0:80 --token t --group g --file f --count 1000000 > Serve ................ t f g 1000000 0.0.0.0:80 127.0.0.1:5006
generate > Generate ................ local home home 1000 127.0.0.1:5006 127.0.0.1:5006
generate --count 100000 > Generate ................ local home home 100000 127.0.0.1:5006 127.0.0.1:5006
world --count 1000000 > World ................ local home home 1000000 127.0.0.1:5006 127.0.0.1:5006
merge x > Words
merge -- x > Words
-- merge --count 5 > Words
device --store x --node aa > Device 00000000000000aa local home home 1000 127.0.0.1:5006 127.0.0.1:5006
device --node aa --node bb > Words
device --node=aa --node aa > Words
device --node - > Words
device --node -aa > Words
device --node -- > Words
device --node > Words
--node aa > Words
--nod aa device > Words
-n aa device > Words
merge --help > Words
merge -h > Words
merge --version > Words
help > Mode
serves > Mode
serve --count 1000001 > Count
Merge > Mode
- > Mode
-- --help > Mode
x --node=- --count 0 > Mode
device --count 0 > NodeMissing
-- device > NodeMissing
--node= device > Node(Empty)
merge --node=- --count 0 > Node(BadByte { at: 0 })
merge --count 0 > Count
merge --count 05 > Count
merge --count=+5 > Count
merge --count= > Count
merge --count 1000001 > Count
merge --count 4294967301 --token= > Count
generate --count 100001 --token= > Count
generate --count 0 > Count
world --count 1000001 > Count
generate --node=- --count 0 > Node(BadByte { at: 0 })
worlds > Mode
merge --file a.b --token a.b > Token
merge --file a.b > Name
merge --group= > Name";

/// The plan of words that stand between spaces.
fn planned(alloc: Global, line: &str) -> Result<Result<Plan, WordFault>, Fail> {
    let mut words = Vec::new(alloc);
    for word in line.split(' ') {
        words.push(Txt::from_text(alloc, word)?)?;
    }
    let words = Items::new(words);
    Ok(plan(alloc, &words))
}

/// What a plan holds besides its mode, its store and its addresses.
fn parts_of(alloc: Global, plan: &Plan) -> Result<String, Fail> {
    let bytes = match plan.node {
        Some(node) => node.bytes(),
        None => [b'.'; 16],
    };
    let node = str::from_utf8(&bytes).unwrap_or("");
    let token = plan.token.as_str();
    let file = plan.file.as_str();
    let group = plan.group.as_str();
    let count = plan.count;
    Ok(format!(in alloc; "{node} {token} {file} {group} {count}")?)
}

/// A plan, with its mode first.
fn plan_text(alloc: Global, plan: &Plan) -> Result<String, Fail> {
    let mode = plan.mode;
    let parts = parts_of(alloc, plan)?;
    let listen = plan.listen.as_str();
    let peer = plan.peer.as_str();
    Ok(format!(in alloc; "{mode:?} {parts} {listen} {peer}")?)
}

/// The same of a copy of a plan.
fn copy_text(alloc: Global, plan: &Plan) -> Result<String, Fail> {
    let copy = plan.copy()?;
    plan_text(alloc, &copy)
}

/// What is wrong of words.
fn fault_text(alloc: Global, fault: WordFault) -> Result<String, Fail> {
    Ok(format!(in alloc; "{fault:?}")?)
}

/// What a line asks for.
fn shown(alloc: Global, line: &str) -> Result<String, Fail> {
    match planned(alloc, line)? {
        Ok(plan) => copy_text(alloc, &plan),
        Err(fault) => fault_text(alloc, fault),
    }
}

#[test]
fn rows(rt: HostRuntime) -> Result<(), Fail> {
    for row in ROWS.split('\n') {
        let (line, told) = row.split_once(" > ").unwrap_or((row, ""));
        let shown = shown(rt.alloc(), line)?;
        assert_eq!(rt; shown.as_str(), told, "{line}");
    }
    Ok(())
}

#[test]
fn no_words(rt: HostRuntime) -> Result<(), Fail> {
    let words = Items::new(Vec::new(rt.alloc()));
    assert_eq!(rt; plan(rt.alloc(), &words).err(), Some(WordFault::Words));
    Ok(())
}

/// A line with a token of so many letters.
fn token_line(alloc: Global, count: u32) -> Result<String, Fail> {
    let mut line = String::from_str(alloc, "merge --token ")?;
    for _ in 0..count {
        line.push_str("t")?;
    }
    Ok(line)
}

/// Whether a line with a token of so many letters is a plan.
fn is_planned(alloc: Global, count: u32) -> Result<bool, Fail> {
    let line = token_line(alloc, count)?;
    let plan = planned(alloc, line.as_str())?;
    Ok(plan.is_ok())
}

/// What a line with a token of so many letters asks for, or its fault.
fn shown_token(alloc: Global, count: u32) -> Result<String, Fail> {
    let line = token_line(alloc, count)?;
    shown(alloc, line.as_str())
}

#[test]
fn longest_token(rt: HostRuntime) -> Result<(), Fail> {
    assert!(rt; is_planned(rt.alloc(), 64)?);
    let shown = shown_token(rt.alloc(), 65)?;
    assert_eq!(rt; shown.as_str(), "Token");
    Ok(())
}
