//! The program: its words, the standard streams, the clock of the system and a store on a disk or in memory.
#![tactic(auto)]

ghost use Rattle.std.specs.Prelude.{◌≡◌, ◌≤◌, IsErr, Some};
ghost use Rattle.std.specs.Process.{exit_status};
ghost use Rattle.budget_top.specs.Words.{planned, planned_mode, refusal_status};
ghost use Rattle.budget_top.specs.Outside.{outside};
ghost use Rattle.budget_top.specs.Ran.{Ran};
ghost use Rattle.budget_top.specs.declared.words.Mode.TheVariants.{Merge, Device, Serve, Generate, World};

mod causes;
mod connection;
mod pace;
mod ports;
mod stdin_source;
mod stdout_sink;
mod system_clock;
mod tcp_door;
mod tcp_link;
mod telling;
#[cfg(test)]
mod tests;
#[cfg(test)]
mod waits;

use budget_ports::{Door, Keeper, Link, Sink, Source, WallClock};
use budget_top::{Mode, WordFault, plan, refusal_status, run};
use causes::store_text;
use field_values::{Items, Steps, Txt};
use ports::memory_keeper;
use sqlite_keeper::{ShutKeeper, StoreFault, open};
use std::alloc::Global;
use std::env;
use std::io::{BufWriter, ErrorKind};
use std::marker::Brand;
use std::process::ExitCode;
use std::sync::ledger::{Blank, Ledger};
use stdin_source::StdinSource;
use stdout_sink::StdoutSink;
use system_clock::SystemClock;
use tcp_door::TcpDoor;
use tcp_link::TcpLink;
use telling::{USAGE, failure};

/// The status of a run whose store failed.
const STORE_FAILED: u8 = 6;

/// The words of the command line, without the program's name. Words that are not UTF-8 are none
/// that a run knows.
fn words_of(rt: &HostRuntime) -> Result<Items<Txt>, WordFault> {
    let arguments = match env::args(rt) {
        Ok(arguments) => arguments,
        Err(error) => {
            return Err(match error.kind() {
                ErrorKind::InvalidData => WordFault::Words,
                _ => WordFault::NoMemory,
            });
        }
    };
    let mut words = Vec::new(rt.alloc());
    for word in arguments.skip(1) {
        if words.push(Txt::new(word)).is_err() {
            return Err(WordFault::NoMemory);
        }
    }
    Ok(Items::new(words))
}

/// Tells what is wrong with the words, and how the program is used; of want of memory its name alone.
fn tell(rt: &HostRuntime, fault: WordFault) {
    let name = fault.name();
    let _ = eprintln!(rt; "{name}");
    if fault != WordFault::NoMemory {
        let _ = eprint!(rt; "{USAGE}");
    }
}

/// Tells why there is no run, and gives the status.
fn without_run(rt: &HostRuntime, fault: WordFault) -> ExitCode
    ensures { exit_status result ≡ refusal_status fault }
{
    tell(rt, fault);
    ExitCode::from(refusal_status(fault))
}

/// Does what the words ask for over the objects that it is handed, and gives the status. The ledger
/// under the counter of steps is still blank.
fn status_over<G: Ledger, S: Source, W: Sink, K: Keeper, L: Link, D: Door, C: WallClock>(
    alloc: Global,
    words: &Items<Txt>,
    source: &mut S,
    sink: &mut W,
    keeper: &mut K,
    link: &mut L,
    door: &mut D,
    clock: &mut C,
    blank: Blank,
) -> u8
    requires name { blank.name ≡ G.name }
    requires parts { blank.parts ≡ G.parts }
    requires some { 1 ≤ G.parts }
    ensures ran { Ran words.now result (outside (S.left source.old) (S.faults source.old) (W.taken sink.old) (W.faults sink.old) (K.tells keeper.old) (K.contents keeper.old) (K.left keeper.old) (K.faults keeper.old) (L.exchanges link.old) (L.faults link.old) (D.waiting door.old) (D.outs door.old) (D.faults door.old) (C.readings clock.old)) (outside (S.left source.new) (S.faults source.new) (W.taken sink.new) (W.faults sink.new) (K.tells keeper.new) (K.contents keeper.new) (K.left keeper.new) (K.faults keeper.new) (L.exchanges link.new) (L.faults link.new) (D.waiting door.new) (D.outs door.new) (D.faults door.new) (C.readings clock.new)) }
    ensures untouched { IsErr (planned words.now) → (source.new ≡ source.old) × (sink.new ≡ sink.old) × (keeper.new ≡ keeper.old) × (link.new ≡ link.old) × (door.new ≡ door.old) × (clock.new ≡ clock.old) }
    ensures merge_alone { planned_mode words.now ≡ Some Merge → (keeper.new ≡ keeper.old) × (link.new ≡ link.old) × (door.new ≡ door.old) × (clock.new ≡ clock.old) }
    ensures device_alone { planned_mode words.now ≡ Some Device → door.new ≡ door.old }
    ensures serve_alone { planned_mode words.now ≡ Some Serve → (source.new ≡ source.old) × (link.new ≡ link.old) × (clock.new ≡ clock.old) }
    ensures generate_alone { planned_mode words.now ≡ Some Generate → (source.new ≡ source.old) × (keeper.new ≡ keeper.old) × (link.new ≡ link.old) × (door.new ≡ door.old) × (clock.new ≡ clock.old) }
    ensures world_alone { planned_mode words.now ≡ Some World → (keeper.new ≡ keeper.old) × (link.new ≡ link.old) × (door.new ≡ door.old) × (clock.new ≡ clock.old) }
{
    let mut steps = Steps::<G>::new(blank);
    run(
        alloc, words, source, sink, keeper, link, door, clock, &mut steps,
    )
}

/// Does what the words ask for over the standard streams, this keeper, this door and a link to the server at an
/// address, which a device alone makes use of, with the clock of the system, and answers the status. What a run that broke off has
/// written is handed on when the writer is dropped.
fn run_with<K: Keeper, D: Door>(
    rt: &HostRuntime,
    words: &Items<Txt>,
    peer: &str,
    keeper: &mut K,
    door: &mut D,
) -> u8 {
    let alloc = rt.alloc();
    let Ok(writer) = BufWriter::new(alloc, rt.stdout()) else {
        return refusal_status(WordFault::NoMemory);
    };
    let mut source = StdinSource::new(rt.stdin());
    let mut sink = StdoutSink::new(writer);
    let mut link = TcpLink::new(alloc, rt, rt, Some(peer));
    let mut clock = SystemClock::new(rt);
    status_over::<Brand, _, _, _, _, _, _>(
        alloc,
        words,
        &mut source,
        &mut sink,
        keeper,
        &mut link,
        door,
        &mut clock,
        Blank::new(1),
    )
}

/// The status of a run whose server let no connection in.
const NOBODY_LET_IN: u8 = 8;

/// Ends with the status of a run, and tells what failed where something did; where no connection was let in, also why the door
/// was refused, if it was.
fn ended(rt: &HostRuntime, status: u8, refusal: Option<&str>) -> ExitCode
    ensures { exit_status result ≡ status }
{
    if let Some(text) = failure(status) {
        let _ = eprintln!(rt; "{text}");
    }
    if let (NOBODY_LET_IN, Some(text)) = (status, refusal) {
        let _ = eprintln!(rt; "{text}");
    }
    ExitCode::from(status)
}

/// Tells why a store isn't there: it can't be opened, or it is of another version.
fn tell_store(rt: &HostRuntime, path: &str, fault: &StoreFault) {
    let _ = match fault {
        StoreFault::Version { found } => {
            let found = found.as_str();
            eprintln!(rt; "store-version {found}")
        }
        StoreFault::Unopened { cause } => {
            let text = store_text(rt, path, *cause);
            eprintln!(rt; "store\n{text}")
        }
        StoreFault::NoMemory => eprintln!(rt; "store"),
    };
}

/// Runs over the store in a file, which is made where it isn't there. Where there is none, that is told, and
/// the run goes over a keeper whose every call fails, so it leaves the file alone. Where memory runs out at
/// the opening there is no run.
fn run_over_store<D: Door>(
    rt: &HostRuntime,
    words: &Items<Txt>,
    peer: &str,
    path: &str,
    door: &mut D,
    refusal: Option<&str>,
) -> ExitCode {
    match open(rt, path) {
        Ok(mut keeper) => {
            let status = run_with(rt, words, peer, &mut keeper, door);
            // what was answered is committed already
            let _ = keeper.into_connection().close();
            ended(rt, status, refusal)
        }
        Err(StoreFault::NoMemory) => without_run(rt, WordFault::NoMemory),
        Err(fault) => {
            tell_store(rt, path, &fault);
            match run_with(rt, words, peer, &mut ShutKeeper::new(), door) {
                STORE_FAILED => ExitCode::from(STORE_FAILED),
                status => ended(rt, status, refusal),
            }
        }
    }
}

/// Does what the words ask for. A server listens at its address; of any other run the door is shut. A device talks to
/// the server at the peer's address; any other run leaves its link alone. A device or a server with a store runs over
/// its file, any other run keeps what it keeps in memory.
fn main(rt: HostRuntime) -> ExitCode {
    let words = match words_of(&rt) {
        Ok(words) => words,
        Err(fault) => return without_run(&rt, fault),
    };
    let plan = match plan(rt.alloc(), &words) {
        Ok(plan) => plan,
        Err(fault) => return without_run(&rt, fault),
    };
    let mut door = match plan.mode {
        Mode::Serve => TcpDoor::listen(&rt, &rt, plan.listen.as_str()),
        Mode::Merge | Mode::Device | Mode::Generate | Mode::World => TcpDoor::shut(&rt),
    };
    let refusal = door.refusal();
    let peer = plan.peer.as_str();
    match (plan.mode, &plan.store) {
        (Mode::Device | Mode::Serve, Some(path)) => {
            run_over_store(&rt, &words, peer, path.as_str(), &mut door, refusal)
        }
        _ => {
            let status = run_with(&rt, &words, peer, &mut memory_keeper(rt.alloc()), &mut door);
            ended(&rt, status, refusal)
        }
    }
}
