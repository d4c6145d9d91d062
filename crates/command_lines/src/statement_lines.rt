//! The line about statements.
ghost use Rattle.std.specs.Prelude.{◌≡◌, IfOk, IfErr};
ghost use Rattle.command_lines.specs.Commands.{import_words, words_of_statement_lines, IsRead, IsCommand};
ghost use Rattle.command_lines.specs.Unread.{command_of_unread, IsFaultOf};

use crate::command::{Command, CommandFault};
use crate::plan_lines::plan_line;
use crate::words::Words;
use device_core::{Edit, ImportEdit};
use std::alloc::Global;

/// The words behind `import`: an account and a statement, which is judged by the edit.
fn import_statement(alloc: Global, words: &mut Words<'_>) -> Result<Command, CommandFault>
    ensures read { IsRead (command_of_unread import_words words.old) result }
    ensures valid { IfOk result IsCommand }
    ensures memory { IfErr result (IsFaultOf import_words words.old) }
{
    let account = words.text(alloc)?;
    let statement = words.text(alloc)?;
    words.end()?;
    Ok(Command::Edit(Edit::Import(ImportEdit { account, statement })))
}

/// The words behind a name that may be one of the lines about statements.
#[tactic(auto, unfolding(crate::specs::Commands::words_of_statement_lines))]
pub(crate) fn statement_line(
    alloc: Global,
    name: &str,
    words: &mut Words<'_>,
) -> Result<Command, CommandFault>
    requires { words.old.last ≡ 0 }
    ensures read { IsRead (command_of_unread (words_of_statement_lines name.now) words.old) result }
    ensures valid { IfOk result IsCommand }
    ensures memory { IfErr result (IsFaultOf (words_of_statement_lines name.now) words.old) }
{
    match name {
        "import" => import_statement(alloc, words),
        _ => plan_line(alloc, name, words),
    }
}
