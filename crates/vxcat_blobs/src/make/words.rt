//! The words of the command `make`.

ghost use Rattle.std.specs.Prelude.{◌≢◌, ◌↔◌, IsTrue, IfSome, IfNone};
ghost use Rattle.vxcat_blobs.specs.MakeCommand.{InvokesMake, Make};
ghost use Rattle.vxcat_blobs.specs.MakeViews.{make_line};

use vx_types::Name;
use vxcat_store::decimal_number;

/// The greatest number of rows of a table.
pub const MAX_ROWS: u64 = 1_000_000;

/// The words after `make`: the seed, the number of rows, and the files that are saved.
#[derive(Drop)]
pub struct MakeWords<'a> {
    pub seed: u64,
    pub rows: u64,
    pub type_file: &'a Name,
    pub out: &'a Name,
    pub id_file: &'a Name,
}

/// The parts of words of the form `make SEED ROWS TYPE OUT IDS` in which no two names of outputs are the same; `None`
/// for other words.
pub fn parse_make<'a>(words: &'a [Name]) -> Option<MakeWords<'a>>
    ensures invoked { IfSome result (λ make. InvokesMake words.now (make_line make)) }
    ensures none { IfNone result ((line : Make) → ¬ (InvokesMake words.now line)) }
{
    let [command, seed, rows, type_file, out, id_file] = words else {
        return None;
    };
    if command.as_str() != "make" || !are_apart(type_file, out, id_file) {
        return None;
    }
    let seed = decimal_number(seed.as_str())?;
    let rows = decimal_number(rows.as_str())?;
    if rows > MAX_ROWS {
        return None;
    }
    Some(MakeWords {
        seed,
        rows,
        type_file,
        out,
        id_file,
    })
}

// Whether no two of these names are the same.
fn are_apart(first: &Name, second: &Name, third: &Name) -> bool
    ensures { IsTrue result ↔ ((first.now ≢ second.now) × (first.now ≢ third.now) × (second.now ≢ third.now)) }
{
    first.as_str() != second.as_str()
        && first.as_str() != third.as_str()
        && second.as_str() != third.as_str()
}
