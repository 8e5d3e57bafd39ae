//! Values and scalars as tagged messages, written and read.

ghost use Rattle.std.specs.Prelude.{◌≡◌, ◌≤◌, ◌<◌, IfOk, IfErr, IsErrOf, MatchResult, OnOk, IsOk, option_copied};
ghost use Rattle.vx_proto.specs.Reads.{Reads};
ghost use Rattle.vx_proto.specs.Written.{written, nested};
ghost use Rattle.vx_type_wire.specs.Known.{ExtMeaning, IsKnown};
ghost use Rattle.vx_types.specs.Fits.{Fits};
ghost use Rattle.vx_types.specs.Typ.{Typ};
ghost use Rattle.vx_types.specs.Seen.{typ};
ghost use Rattle.vx_types.specs.Value as V;
ghost use Rattle.vx_types.specs.Well.{IsWell};
ghost use Rattle.vx_type_wire.specs.Session.{ext_meaning};
ghost use Rattle.vx_scalar_wire.specs.Answers.{GivesType};
ghost use Rattle.vx_scalar_wire.specs.Reading.{ReadsValue, ReadsScalar, ShowsValue, IsKnownValue};
ghost use Rattle.vx_scalar_wire.specs.Refusing.{RefusesReadingValue};
ghost use Rattle.vx_scalar_wire.specs.RefusingCalls.{RefusesReadingScalarAt, RefusesReadingScalarMessage, RefusesReadingValueBytes};
ghost use Rattle.vx_scalars.specs.Seen.{seen};
ghost use Rattle.vx_scalars.specs.Told.{Typed};
ghost use Rattle.vx_scalar_wire.specs.ScalarMessage.{scalar_lists, value_message, scalar_message};
ghost use Rattle.vx_scalar_wire.specs.Shallow.{IsShallow, IsShallowScalar};
ghost use Rattle.vx_scalar_wire.specs.Writing.{Writes, RefusesWritingValueBytes};

use crate::error::ScalarWireError;
use crate::pb;
use crate::reading::{read_scalar, read_value};
use crate::writing::{scalar_slots, value_slots};
use std::alloc::Global;
use vx_proto::{Message, PlainMessage, nests_within};
use vx_scalars::{Scalar, ScalarValue};
use vx_type_wire::{DTypeExt, ExtSession, TypeWireError, pb as types};
use vx_types::{Blob, DType, or_memory};

// The limit of nested messages, the root counted.
const MOST_MESSAGES: u8 = 100;

/// The message of a value, written and read.
pub trait ScalarValueExt: Sized {
    /// The message of a value, or of a null.
    fn to_proto(alloc: Global, value: Option<&Self>) -> Result<pb::ScalarValue, ScalarWireError>;

    /// The bytes of that message.
    fn to_proto_bytes(alloc: Global, value: Option<&Self>) -> Result<Blob, ScalarWireError>;

    /// The value, or the null, whose message this is at a type.
    fn from_proto(
        alloc: Global,
        message: &pb::ScalarValue,
        dtype: &DType,
        readers: &ExtSession,
    ) -> Result<Option<Self>, ScalarWireError>;

    /// The value, or the null, whose message these bytes are at a type.
    fn from_proto_bytes(
        alloc: Global,
        bytes: &[u8],
        dtype: &DType,
        readers: &ExtSession,
    ) -> Result<Option<Self>, ScalarWireError>;
}

impl ScalarValueExt for ScalarValue {
    /// The message of a value, or of a null: signed integers as int64 and unsigned ones
    /// as uint64, floats by their own members, a decimal as the bytes of its width, a
    /// tuple as a list. `BadDType` exactly where the type of a variant in it has
    /// over 50 levels. What is written of a value that fits a type is read as the
    /// value at that type, by readers that know the types of its variants.
    #[tactic(auto, using(crate::proofs::Form::value_form, crate::proofs::LawsScalars::written))]
    fn to_proto(
        alloc: Global,
        value: Option<&ScalarValue>,
    ) -> Result<pb::ScalarValue, ScalarWireError>
        ensures written { Writes (λ m. m) result (IsShallow (seen (option_copied value.entry))) (value_message (seen (option_copied value.entry))) }
        ensures well { OnOk result (IsWell (seen (option_copied value.entry))) }
        ensures read_back { IfOk result (λ m. (s : ExtMeaning) (d : Typ) → Fits (seen (option_copied value.entry)) d → IsKnownValue s (seen (option_copied value.entry))
            → ReadsValue s (seen (option_copied value.entry)) d m) }
    {
        let slots = value_slots(alloc, value)?;
        Ok(PlainMessage::new(slots))
    }

    /// The bytes of that message. `TooDeep` exactly where over 100 messages nest
    /// in it.
    fn to_proto_bytes(alloc: Global, value: Option<&ScalarValue>) -> Result<Blob, ScalarWireError>
        ensures exact { IfOk result (λ bytes. bytes ≡ written scalar_lists 15 (value_message (seen (option_copied value.entry)))) }
        ensures read { IfOk result (λ bytes. Reads scalar_lists 15 bytes (value_message (seen (option_copied value.entry)))) }
        ensures read_back { IfOk result (λ bytes. (s : ExtMeaning) (d : Typ) → Fits (seen (option_copied value.entry)) d → IsKnownValue s (seen (option_copied value.entry))
            → ShowsValue s (seen (option_copied value.entry)) d bytes) }
        ensures shallow { OnOk result (IsShallow (seen (option_copied value.entry))) }
        ensures well { OnOk result (IsWell (seen (option_copied value.entry))) }
        ensures nests { IsOk result → nested (value_message (seen (option_copied value.entry))) ≤ 100 }
        ensures cause { IfErr result (λ e. RefusesWritingValueBytes e (IsShallow (seen (option_copied value.entry))) (value_message (seen (option_copied value.entry)))) }
    {
        let message = ScalarValue::to_proto(alloc, value)?;
        let bytes = message.encode_to_vec(alloc)?;
        Ok(Blob::new(bytes.into_vec()))
    }

    /// The value, or the null, whose message this is at a type. `TooDeep` exactly where over
    /// 100 messages nest, which is tested first.
    #[tactic(auto, using(crate::proofs::Complete::complete))]
    fn from_proto(
        alloc: Global,
        message: &pb::ScalarValue,
        dtype: &DType,
        readers: &ExtSession,
    ) -> Result<Option<ScalarValue>, ScalarWireError>
        ensures read { IfOk result (λ x. ReadsValue (ext_meaning (λ b. accepted (b.vtable, b.value)) readers.now) (seen x) (typ dtype.now) message.now) }
        ensures cause { IfErr result (λ e. RefusesReadingValue e (ext_meaning (λ b. accepted (b.vtable, b.value)) readers.now) 100 (typ dtype.now) message.now) }
        ensures deep { 100 < nested message.now → IsErrOf result ScalarWireError.TooDeep }
        ensures complete { (v : V.Value) → nested message.now ≤ 100 → ReadsValue (ext_meaning (λ b. accepted (b.vtable, b.value)) readers.now) v (typ dtype.now) message.now
            → MatchResult result (λ x. seen x ≡ v) (λ e. e ≡ ScalarWireError.OutOfMemory) }
    {
        let _ = dtype.is_within(1);
        let Some(slots) = message.slots() else {
            return Err(ScalarWireError::MissingKind);
        };
        if !nests_within(slots, MOST_MESSAGES) {
            return Err(ScalarWireError::TooDeep);
        }
        let read_type = |message: &types::DType| -> Result<DType, TypeWireError>
            ensures { GivesType (ext_meaning (λ b. accepted (b.vtable, b.value)) readers.entry.now) message.now result }
        { DType::from_proto(alloc, message, readers) };
        read_value(alloc, slots, dtype, &read_type)
    }

    /// The value, or the null, whose message these bytes are at a type. `BadMessage`,
    /// `TooDeep` and `OutOfRange` also where the bytes are no message of the schema.
    #[tactic(auto, using(crate::proofs::Calls::bytes_read))]
    fn from_proto_bytes(
        alloc: Global,
        bytes: &[u8],
        dtype: &DType,
        readers: &ExtSession,
    ) -> Result<Option<ScalarValue>, ScalarWireError>
        ensures read { IfOk result (λ x. ShowsValue (ext_meaning (λ b. accepted (b.vtable, b.value)) readers.now) (seen x) (typ dtype.now) bytes.now) }
        ensures cause { IfErr result (λ e. RefusesReadingValueBytes e (ext_meaning (λ b. accepted (b.vtable, b.value)) readers.now) (typ dtype.now) bytes.now) }
        ensures complete { (v : V.Value) → ShowsValue (ext_meaning (λ b. accepted (b.vtable, b.value)) readers.now) v (typ dtype.now) bytes.now
            → MatchResult result (λ x. seen x ≡ v) (λ e. e ≡ ScalarWireError.OutOfMemory) }
    {
        let message = pb::ScalarValue::decode(alloc, bytes)?;
        ScalarValue::from_proto(alloc, &message, dtype, readers)
    }
}

/// The message of a scalar, written and read.
pub trait ScalarExt: Sized {
    /// The message of the scalar.
    fn to_proto(&self, alloc: Global) -> Result<pb::Scalar, ScalarWireError>;

    /// The scalar whose message this is.
    fn from_proto(
        alloc: Global,
        message: &pb::Scalar,
        readers: &ExtSession,
    ) -> Result<Self, ScalarWireError>;

    /// The scalar of a type whose value's message this is.
    fn from_proto_value(
        alloc: Global,
        message: &pb::ScalarValue,
        dtype: &DType,
        readers: &ExtSession,
    ) -> Result<Self, ScalarWireError>;
}

impl ScalarExt for Scalar {
    /// The message of the scalar: its type and its value. `BadDType` exactly where
    /// its type, or that of a variant in it, has over 50 levels.
    #[tactic(auto, using(crate::proofs::Form::scalar_form, crate::proofs::LawsScalars::written))]
    fn to_proto(&self, alloc: Global) -> Result<pb::Scalar, ScalarWireError>
        ensures written { Writes (λ m. m) result (IsShallowScalar self.now) (scalar_message self.now) }
        ensures read_back { IfOk result (λ m. (s : ExtMeaning) → IsKnown s self.now.dtype → IsKnownValue s self.now.value → ReadsScalar s self.now m) }
    {
        let slots = scalar_slots(alloc, self)?;
        Ok(PlainMessage::new(slots))
    }

    /// The scalar whose message this is. `TooDeep` exactly where over 100 messages nest, which is
    /// tested first.
    #[tactic(auto, using(crate::proofs::Complete::complete))]
    fn from_proto(
        alloc: Global,
        message: &pb::Scalar,
        readers: &ExtSession,
    ) -> Result<Scalar, ScalarWireError>
        ensures read { IfOk result (λ x. ReadsScalar (ext_meaning (λ b. accepted (b.vtable, b.value)) readers.now) x message.now) }
        ensures cause { IfErr result (λ e. RefusesReadingScalarMessage e (ext_meaning (λ b. accepted (b.vtable, b.value)) readers.now) message.now) }
        ensures deep { 100 < nested message.now → IsErrOf result ScalarWireError.TooDeep }
        ensures complete { (x : Typed) → nested message.now ≤ 100 → ReadsScalar (ext_meaning (λ b. accepted (b.vtable, b.value)) readers.now) x message.now
            → MatchResult result (λ y. y ≡ x) (λ e. e ≡ ScalarWireError.OutOfMemory) }
    {
        let Some(slots) = message.slots() else {
            return Err(ScalarWireError::MissingKind);
        };
        if !nests_within(slots, MOST_MESSAGES) {
            return Err(ScalarWireError::TooDeep);
        }
        let read_type = |message: &types::DType| -> Result<DType, TypeWireError>
            ensures { GivesType (ext_meaning (λ b. accepted (b.vtable, b.value)) readers.entry.now) message.now result }
        { DType::from_proto(alloc, message, readers) };
        read_scalar(alloc, slots, &read_type)
    }

    /// The scalar of a type whose value's message this is. `TooDeep` exactly where over 100
    /// messages nest, which is tested first, and `BadScalar` also where the value does not fit
    /// the type.
    #[tactic(auto, using(crate::proofs::Calls::scalars_read))]
    fn from_proto_value(
        alloc: Global,
        message: &pb::ScalarValue,
        dtype: &DType,
        readers: &ExtSession,
    ) -> Result<Scalar, ScalarWireError>
        ensures dtype { IfOk result (λ x. x.dtype ≡ typ dtype.now) }
        ensures read { IfOk result (λ x. ReadsValue (ext_meaning (λ b. accepted (b.vtable, b.value)) readers.now) x.value (typ dtype.now) message.now) }
        ensures fits { IfOk result (λ x. Fits x.value (typ dtype.now)) }
        ensures cause { IfErr result (λ e. RefusesReadingScalarAt e (ext_meaning (λ b. accepted (b.vtable, b.value)) readers.now) (typ dtype.now) message.now) }
        ensures deep { 100 < nested message.now → IsErrOf result ScalarWireError.TooDeep }
        ensures complete { (v : V.Value) → nested message.now ≤ 100 → ReadsValue (ext_meaning (λ b. accepted (b.vtable, b.value)) readers.now) v (typ dtype.now) message.now → Fits v (typ dtype.now)
            → MatchResult result (λ x. x.value ≡ v) (λ e. e ≡ ScalarWireError.OutOfMemory) }
    {
        let value = ScalarValue::from_proto(alloc, message, dtype, readers)?;
        Ok(Scalar::try_new(or_memory(dtype.clone(alloc))?, value)?)
    }
}
