//! The table of commands: what their words name, and the function of each.

ghost use Rattle.std.specs.Prelude.{IfSome, IfNone};
ghost use Rattle.vxcat_store.specs.RunState.{run_of};
ghost use Rattle.vxcat_core.specs.Commands.{Command, Ends, Invokes};
ghost use Rattle.vxcat_core.specs.CommandViews.{IsInvoked, command_of};

use std::alloc::Global;
use vx_types::Name;
use vxcat_blobs::{
    MakeWords, RecodeWords, parse_expr, parse_make, parse_recode, run_expr, run_make, run_recode,
};
use vxcat_store::{Sink, Status, Store};

/// A command with what its words name.
#[derive(Drop)]
pub enum CommandWords<'a> {
    Recode(RecodeWords<'a>),
    Expr(&'a Name),
    Make(MakeWords<'a>),
}

/// The command that the words invoke; `None` where they invoke none.
pub fn parse_command<'a>(words: &'a [Name]) -> Option<CommandWords<'a>>
    ensures invoked { IfSome result (λ found. Invokes words.now (command_of found)) }
    ensures none { IfNone result ((command : Command) → ¬ (Invokes words.now command)) }
{
    match parse_recode(words) {
        Some(recode) => Some(CommandWords::Recode(recode)),
        None => match parse_expr(words) {
            Some(file) => Some(CommandWords::Expr(file)),
            None => match parse_make(words) {
                Some(make) => Some(CommandWords::Make(make)),
                None => None,
            },
        },
    }
}

/// Runs a command that some words invoke.
pub fn run_command<S: Store, O: Sink>(
    alloc: Global,
    command: &CommandWords,
    store: &mut S,
    out: &mut O,
) -> Status
    requires { IsInvoked (command_of command.now) }
    ensures { Ends result (command_of command.now) (run_of (S.state store.old) (S.state store.new) (O.state out.old) (O.state out.new)) }
{
    match command {
        CommandWords::Recode(words) => run_recode(alloc, words, store, out),
        CommandWords::Expr(file) => run_expr(alloc, file, store, out),
        CommandWords::Make(words) => run_make(alloc, words, store, out),
    }
}
