//! The statuses with which the program ends, and their numbers.

ghost use Rattle.std.specs.Prelude.{◌≡◌};
ghost use Rattle.vxcat_store.specs.Status.{status_number};
ghost use Rattle.vxcat_store.specs.Statuses.{load_status, save_status, print_status, type_status, id_status, expr_status, blob_status};

use crate::id_file::IdFileError;
use crate::print::PrintError;
use crate::store::StoreError;
use vx_fn_wire::FnWireError;
use vx_serialized::{BlobRefusal, WireError};
use vx_type_wire::TypeWireError;

/// How a run of the program ends.
#[derive(Clone, Copy, Debug, PartialEq, Eq)]
pub enum Status {
    /// The command's outputs are saved and its text is printed: 0.
    Done,
    /// An allocation failed, at any step: 1.
    OutOfMemory,
    /// The words are no command: 2.
    NoCommand,
    /// An input could not be loaded: 3.
    LoadFault,
    /// An output could not be saved: 4.
    SaveFault,
    /// The command's text could not be wholly printed; its outputs are saved: 5.
    WriteFault,
    /// The type file shows no type within the limits, or one with an extension that is not allowed: 6.
    BadType,
    /// The id file is no text of identifiers: 7.
    BadIds,
    /// The expression file is read as no expression: 8.
    BadExpression,
    /// The blob cannot be read or written again: the number of this cause.
    Refused(BlobRefusal),
}

impl Status {
    /// The exit status of the process.
    pub fn number(self) -> u8
        ensures { result ≡ status_number self }
    {
        match self {
            Status::Done => 0,
            Status::OutOfMemory => 1,
            Status::NoCommand => 2,
            Status::LoadFault => 3,
            Status::SaveFault => 4,
            Status::WriteFault => 5,
            Status::BadType => 6,
            Status::BadIds => 7,
            Status::BadExpression => 8,
            Status::Refused(refusal) => refusal.wire_error().number(),
        }
    }

    /// The status of a load that was refused.
    pub fn of_load(error: StoreError) -> Status
        ensures { result ≡ load_status error }
    {
        match error {
            StoreError::OutOfMemory => Status::OutOfMemory,
            StoreError::Failed => Status::LoadFault,
        }
    }

    /// The status of a save that was refused.
    pub fn of_save(error: StoreError) -> Status
        ensures { result ≡ save_status error }
    {
        match error {
            StoreError::OutOfMemory => Status::OutOfMemory,
            StoreError::Failed => Status::SaveFault,
        }
    }

    /// The status of a listing that was not wholly printed.
    pub fn of_print(error: PrintError) -> Status
        ensures { result ≡ print_status error }
    {
        match error {
            PrintError::OutOfMemory => Status::OutOfMemory,
            PrintError::Failed => Status::WriteFault,
        }
    }

    /// The status of a type file that was refused.
    pub fn of_type(error: TypeWireError) -> Status
        ensures { result ≡ type_status error }
    {
        match error {
            TypeWireError::OutOfMemory => Status::OutOfMemory,
            TypeWireError::BadTable
            | TypeWireError::TableLimit
            | TypeWireError::BadMessage
            | TypeWireError::TooDeep
            | TypeWireError::BadType
            | TypeWireError::UnknownExtension
            | TypeWireError::ExtensionRefused
            | TypeWireError::WireLimit => Status::BadType,
        }
    }

    /// The status of an id file that was refused.
    pub fn of_ids(error: IdFileError) -> Status
        ensures { result ≡ id_status error }
    {
        match error {
            IdFileError::OutOfMemory => Status::OutOfMemory,
            IdFileError::BadText => Status::BadIds,
        }
    }

    /// The status of an expression file that was refused.
    pub fn of_expr(error: FnWireError) -> Status
        ensures { result ≡ expr_status error }
    {
        match error {
            FnWireError::OutOfMemory => Status::OutOfMemory,
            FnWireError::BadMessage
            | FnWireError::TooDeep
            | FnWireError::RootWithChildren
            | FnWireError::UnknownId
            | FnWireError::ArityMismatch
            | FnWireError::IdMismatch
            | FnWireError::NotSerializable
            | FnWireError::PluginRefused => Status::BadExpression,
        }
    }

    /// The status of a blob that was refused.
    pub fn of_blob(error: WireError) -> Status
        ensures { result ≡ blob_status error }
    {
        match error.refusal() {
            None => Status::OutOfMemory,
            Some(refusal) => Status::Refused(refusal),
        }
    }
}
