//! The mode `generate`: writes what a device tells of a book that is generated.
ghost use Rattle.std.specs.Prelude.{◌≡◌, ◌==◌, IfOk, string_bytes};
ghost use Rattle.budget_ports.specs.Faults.{count_after};
ghost use Rattle.budget_top.specs.Words.{IsCountIn};
ghost use Rattle.budget_top.specs.GenerateRun.{GenerateRun, book_text, summary_text};

use crate::dispatch::{DONE, NO_MEMORY, SINK_FAILED};
use crate::write::write_and_flush;
use budget_ports::Sink;
use field_values::NoMemory;
use generated_books::{Summary, generated_summary};
use std::alloc::Global;

/// The three lines of a summary.
fn summary_text(alloc: Global, summary: &Summary) -> Result<String, NoMemory>
    ensures { IfOk result (λ text. string_bytes text ≡ summary_text summary.now) }
{
    let messages = summary.messages;
    let root = summary.root;
    let to_budget = summary.to_budget;
    Ok(format!(in alloc; "messages {messages}\nroot {root}\nto-budget {to_budget}\n")?)
}

/// What is written of a book of so many transactions.
fn book_text(alloc: Global, count: u32) -> Result<String, NoMemory>
    requires { IsCountIn 100_000 count }
    ensures { IfOk result (λ text. string_bytes text ≡ book_text count) }
{
    let summary = generated_summary(alloc, count)?;
    summary_text(alloc, &summary)
}

/// Generates a book of so many transactions, writes what a device tells of it, and gives the status. All memory that the run
/// wants is taken before a byte is written.
pub fn run_generate<W: Sink>(alloc: Global, count: u32, sink: &mut W) -> u8
    requires { IsCountIn 100_000 count }
    ensures run { GenerateRun count result (W.taken sink.old) (W.taken sink.new) }
    ensures sink { W.faults sink.new ≡ count_after (result == 5) (W.faults sink.old) }
{
    let Ok(text) = book_text(alloc, count) else {
        return NO_MEMORY;
    };
    match write_and_flush(sink, text.as_str().as_bytes()) {
        Ok(()) => DONE,
        Err(_) => SINK_FAILED,
    }
}
