//! The words of the command `recode`.

ghost use Rattle.std.specs.Prelude.{IfSome, IfNone};
ghost use Rattle.vxcat_blobs.specs.Recode.{InvokesRecode, Recode};
ghost use Rattle.vxcat_blobs.specs.RecodeViews.{line_of};

use crate::options::{Options, parse_options};
use vx_types::Name;
use vxcat_store::decimal_number;

/// The words after `recode`: the files that it reads and writes, the length of the array, and the options.
#[derive(Drop)]
pub struct RecodeWords<'a> {
    pub type_file: &'a Name,
    pub blob_file: &'a Name,
    pub len: u64,
    pub id_file: &'a Name,
    pub out: &'a Name,
    pub out_ids: &'a Name,
    pub options: Options<'a>,
}

/// The parts of words of the form `recode TYPE BLOB LEN IDS OUT OUTIDS`, with options after these, in which the two
/// names of outputs differ; `None` for other words.
pub fn parse_recode<'a>(words: &'a [Name]) -> Option<RecodeWords<'a>>
    ensures invoked { IfSome result (λ recode. InvokesRecode words.now (line_of recode)) }
    ensures none { IfNone result ((line : Recode) → ¬ (InvokesRecode words.now line)) }
{
    let [
        command,
        type_file,
        blob_file,
        len,
        id_file,
        out,
        out_ids,
        rest @ ..,
    ] = words
    else {
        return None;
    };
    if command.as_str() != "recode" || out.as_str() == out_ids.as_str() {
        return None;
    }
    let len = decimal_number(len.as_str())?;
    let options = parse_options(rest, Options::none())?;
    Some(RecodeWords {
        type_file,
        blob_file,
        len,
        id_file,
        out,
        out_ids,
        options,
    })
}
