//! The command `recode`: it loads its inputs, recodes the blob, saves the outputs and prints the listing.

ghost use Rattle.std.specs.Prelude.{◌≡◌, ◌≢◌};
ghost use Rattle.vxcat_blobs.specs.Recode.{EndsRecode};
ghost use Rattle.vxcat_store.specs.RunState.{run_of};
ghost use Rattle.vxcat_blobs.specs.GivenOptions.{given_in, settings_by};
ghost use Rattle.vxcat_blobs.specs.RecodeViews.{line_of};

mod steps;
mod words;

use crate::options::Options;
use std::alloc::Global;
use steps::{load_inputs, recode_inputs, save_outputs};
pub use steps::{Outputs, recode_buffer, serialize_options};
use vxcat_store::{Sink, Status, Store, print_listing};
pub use words::{RecodeWords, parse_recode};

// The number of rows of a listing without `--rows`.
const DEFAULT_ROWS: u64 = 10;

/// Runs the command that the words name.
pub fn run_recode<S: Store, O: Sink>(
    alloc: Global,
    words: &RecodeWords,
    store: &mut S,
    out: &mut O,
) -> Status
    requires { words.now.out.now ≢ words.now.out_ids.now }
    ensures { EndsRecode result (line_of words.now) (run_of (S.state store.old) (S.state store.new) (O.state out.old) (O.state out.new)) }
{
    let loaded = match load_inputs(alloc, words, store) {
        Ok(loaded) => loaded,
        Err(status) => return status,
    };
    let made = match recode_inputs(alloc, words, loaded) {
        Ok(made) => made,
        Err(refusal) => return refusal,
    };
    if let Err(status) = save_outputs(alloc, words, &made, store) {
        return status;
    }
    match print_listing(alloc, &made.array, shown_rows(words.options), out) {
        Ok(()) => Status::Done,
        Err(error) => Status::of_print(error),
    }
}

// The number of rows that are listed.
fn shown_rows(options: Options<'_>) -> usize
    ensures { result ≡ (settings_by (given_in options.entry)).rows }
{
    options.rows.unwrap_or(DEFAULT_ROWS) as usize
}
