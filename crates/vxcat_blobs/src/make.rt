//! The command `make`: it generates a table, writes it, saves the outputs and prints a line.

ghost use Rattle.std.specs.Prelude.{◌≤◌};
ghost use Rattle.vxcat_blobs.specs.MakeCommand.{AreApart, EndsMake};
ghost use Rattle.vxcat_blobs.specs.MakeViews.{make_line};
ghost use Rattle.vxcat_store.specs.RunState.{run_of};

mod saving;
mod steps;
mod words;

use saving::save_made;
use std::alloc::Global;
use steps::make_outputs;
use vxcat_store::{Sink, Status, Store, write_text};
pub use words::{MakeWords, parse_make};

/// Runs the command that the words name.
pub fn run_make<S: Store, O: Sink>(
    alloc: Global,
    words: &MakeWords,
    store: &mut S,
    out: &mut O,
) -> Status
    requires few { words.now.rows ≤ 1000000 }
    requires apart { AreApart (make_line words.now) }
    ensures { EndsMake result (make_line words.now) (run_of (S.state store.old) (S.state store.new) (O.state out.old) (O.state out.new)) }
{
    let made = match make_outputs(alloc, words.seed, words.rows as usize) {
        Ok(made) => made,
        Err(status) => return status,
    };
    if let Err(status) = save_made(alloc, words, &made, store) {
        return status;
    }
    match write_text(out, made.line.as_str().as_bytes()) {
        Ok(()) => Status::Done,
        Err(_) => Status::WriteFault,
    }
}
