//! The whole run: from the words of the command line to the number of the exit status.

ghost use Rattle.std.specs.Prelude.{◌≡◌, ◌⊎◌, ◌↔◌};
ghost use Rattle.vxcat_core.specs.Commands.{Command, Invokes};
ghost use Rattle.vxcat_core.specs.Outcome.{CanRun, HasOutcome};
ghost use Rattle.vxcat_store.specs.RunState.{HasNoFault, run_of};

use crate::commands::{parse_command, run_command};
use std::alloc::Global;
use vx_types::Name;
use vxcat_store::{Sink, Status, Store};

/// Runs the command that the words invoke, and returns the exit status of the program.
///
/// The words come without the program's name. `recode TYPE BLOB LEN IDS OUT OUTIDS`, with `--pad OFFSET`, `--rows N`,
/// `--allow FILE`, `--unknown`, `--deep` and `--rev2` after them, loads TYPE, BLOB, IDS and FILE, saves OUT and OUTIDS,
/// and prints the listing of the array. `expr FILE` loads FILE, reads an expression from it, and prints its text and
/// the bytes by which it is written again, as hex digits, each on a line. `make SEED ROWS TYPE OUT IDS` generates a
/// table, saves its type, its blob and the blob's identifiers, and prints a line.
pub fn run<S: Store, O: Sink>(alloc: Global, words: &[Name], store: &mut S, out: &mut O) -> u8
    ensures outcome { HasOutcome result words.now (run_of (S.state store.old) (S.state store.new) (O.state out.old) (O.state out.new)) }
    ensures no_command { (result ≡ 2) ↔ ((command : Command) → ¬ (Invokes words.now command)) }
    ensures complete { CanRun words.now (S.state store.old)
        → HasNoFault (run_of (S.state store.old) (S.state store.new) (O.state out.old) (O.state out.new))
        → (result ≡ 0) ⊎ (result ≡ 1) }
{
    match parse_command(words) {
        Some(command) => run_command(alloc, &command, store, out).number(),
        None => Status::NoCommand.number(),
    }
}
