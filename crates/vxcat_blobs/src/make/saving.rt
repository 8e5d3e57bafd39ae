//! Saving what the command `make` made.

ghost use Rattle.std.specs.Prelude.{OnOk, OnErr, IfErr};
ghost use Rattle.vxcat_blobs.specs.MakeCommand.{AreApart, AreMadeSaved, KeepsAllOthers};
ghost use Rattle.vxcat_blobs.specs.MakeViews.{StopsSomewhere, files_of, make_line};
ghost use Rattle.vxcat_store.specs.Statuses.{RefusesSave};
ghost use Rattle.vxcat_store.specs.StoreState.{LoadsNothing};

use super::steps::MadeOutputs;
use super::words::MakeWords;
use std::alloc::Global;
use vxcat_store::{Status, Store, write_ids};

/// Saves the bytes of the type, then the blob, then the text of its identifiers.
pub fn save_made<S: Store>(
    alloc: Global,
    words: &MakeWords,
    made: &MadeOutputs,
    store: &mut S,
) -> Result<(), Status>
    requires { AreApart (make_line words.now) }
    ensures saved { OnOk result (AreMadeSaved (make_line words.now) (S.state store.new) (files_of made.now)) }
    ensures loaded { LoadsNothing (S.state store.old) (S.state store.new) }
    ensures others { KeepsAllOthers (make_line words.now) (S.state store.old) (S.state store.new) }
    ensures stopped { OnErr result (StopsSomewhere (make_line words.now) (S.state store.old) (S.state store.new) (files_of made.now)) }
    ensures cause { IfErr result (λ status. RefusesSave status (S.state store.old) (S.state store.new)) }
{
    let Ok(text) = write_ids(alloc, &made.ids) else {
        return Err(Status::OutOfMemory);
    };
    if let Err(error) = store.save(alloc, words.type_file, made.type_bytes.as_slice()) {
        return Err(Status::of_save(error));
    }
    if let Err(error) = store.save_buffers(alloc, words.out, &made.buffers) {
        return Err(Status::of_save(error));
    }
    match store.save(alloc, words.id_file, text.as_slice()) {
        Ok(()) => Ok(()),
        Err(error) => Err(Status::of_save(error)),
    }
}
