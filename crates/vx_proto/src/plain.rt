//! Messages as their plain values: a message type for each schema, without a conversion.

ghost use Rattle.std.specs.Prelude.{◌≡◌, ◌<◌, ℕ, length, IfOk, IsOkUnless, IsTrue, MatchOption};
ghost use Rattle.vx_proto.specs.Schema.{Schema, schema_view};
ghost use Rattle.vx_proto.specs.Value.{Value, value_view};
ghost use Rattle.vx_proto.specs.Reads.{default_value};
ghost use Rattle.vx_proto.specs.Form.{HasForm};
ghost use Rattle.vx_proto.specs.Lawful.{is_lawful};

use crate::blob::Blob;
use crate::copying::copied_slots;
use crate::element::Entries;
use crate::error::ProtoError;
use crate::message::{Message, encoded};
use crate::reading::message_of;
use crate::schema::Schema as Lists;
use std::alloc::Global;
use std::marker::{Model, PhantomData};

/// Which message a plain one is: a lawful schema, and a place there.
pub trait MessageKind {
    /// The messages of the schema, each as its list of slots.
    ghost schema: { Schema };

    /// The index of the message among them.
    ghost place: { ℕ };

    /// The schema, as a constant of the code. It stands twice, here and as `schema`, since definitions cannot name a
    /// constant that holds references.
    fn lists() -> Lists
        ensures { schema_view result ≡ schema };

    /// The index of the message among the schema's.
    fn schema_place() -> u32
        ensures { result ≡ place };

    /// The schema is lawful: a test, which `refl` proves of a schema that is written out.
    ghost lawful: { IsTrue (is_lawful schema) };

    /// The message is one of the schema's: a test that `refl` proves, too.
    ghost placed: { place < length schema };
}

/// A message of a kind. Contracts see its plain value, which has the form of the schema: one member in
/// each plain slot, at most one in a oneof, each in its range.
#[derive(Debug, Drop)]
pub struct PlainMessage<K: MessageKind> {
    // None where each slot is at its default, so that `default` takes no memory.
    slots: Option<Vec<Entries>>,
    kind: PhantomData<K>,
}

impl<K: MessageKind> Model for PlainMessage<K> {
    ghost use Rattle.vx_proto.specs.Value.{Value as PlainValue};
    ghost use Rattle.vx_proto.specs.Reads.{default_value};
    ghost use Rattle.vx_proto.specs.Form.{HasForm};
    ghost use Rattle.vx_proto.specs.Codes.{value_code};
    ghost use Rattle.vx_proto.specs.Plain.{plain_value};

    ghost Value = { PlainValue };

    ghost coded = { value_code };

    ghost view = { λ m. plain_value (default_value K.schema K.place) m.slots };

    ghost invariant = { λ m. HasForm K.schema K.place (plain_value (default_value K.schema K.place) m.slots) };
}

impl<K: MessageKind> PlainMessage<K> {
    /// The message of a plain value that has the form, moved in and not copied.
    pub fn new(slots: Vec<Entries>) -> PlainMessage<K>
        requires { HasForm K.schema K.place (value_view slots.items) }
        ensures { result ≡ value_view slots.items }
    {
        PlainMessage {
            slots: Some(slots),
            kind: PhantomData,
        }
    }

    /// The slots of the plain value, which has the form of the kind; `None` where each slot is at its
    /// default.
    pub fn slots(&self) -> Option<&[Entries]>
        ensures form { HasForm K.schema K.place self.now }
        ensures value { MatchOption result (self.now ≡ default_value K.schema K.place) (λ v. value_view v.now ≡ self.now) }
    {
        match &self.slots {
            Some(slots) => Some(slots.as_slice()),
            None => None,
        }
    }
}

/// The plain value of a message without fields. The only refusal is `OutOfMemory`.
fn default_slots(alloc: Global, schema: Lists, place: u32) -> Result<Vec<Entries>, ProtoError>
    ensures same { IfOk result (λ v. value_view v.items ≡ default_value (schema_view schema) place) }
    ensures err { IsOkUnless result ProtoError.OutOfMemory }
{
    message_of(alloc, schema, 100, place, &[])
}

impl<K: MessageKind> Message for PlainMessage<K> {
    ghost schema = { K.schema };

    ghost place = { K.place };

    ghost value = { λ m. m };

    fn lists() -> Lists {
        K::lists()
    }

    fn schema_place() -> u32 {
        K::schema_place()
    }

    #[tactic(auto, using(crate::proofs::LawsOfMessages::default_formed))]
    fn default(_alloc: Global) -> PlainMessage<K> {
        PlainMessage {
            slots: None,
            kind: PhantomData,
        }
    }

    fn from_value(_alloc: Global, slots: Vec<Entries>) -> Result<PlainMessage<K>, ProtoError> {
        Ok(PlainMessage::new(slots))
    }

    fn to_value(&self, alloc: Global) -> Result<Vec<Entries>, ProtoError> {
        match self.slots() {
            Some(slots) => copied_slots(alloc, slots),
            None => default_slots(alloc, K::lists(), K::schema_place()),
        }
    }

    // The message is its plain value, so nothing is made first.
    fn encode_value(&self, alloc: Global) -> Result<Blob, ProtoError> {
        match self.slots() {
            Some(slots) => encoded(alloc, K::lists(), K::schema_place(), slots),
            None => {
                let slots = default_slots(alloc, K::lists(), K::schema_place())?;
                encoded(alloc, K::lists(), K::schema_place(), &slots)
            }
        }
    }

    ghost lawful = { K.lawful };

    ghost placed = { K.placed };

    ghost determined = { λ m n p q e. e };
}
