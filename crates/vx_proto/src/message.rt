//! Messages of a schema, read and written by one pair of calls for all of them.

ghost use Rattle.std.specs.Prelude.{◌≡◌, ◌<◌, ◌≤◌, ◌⊎◌, ◌^◌, ℕ, IfOk, IfErr, OnOk, IsOkUnless, IsOk, IsErr, IsErrOf, IsTrue, MatchResult, length};
ghost use Rattle.vx_proto.specs.declared.error.ProtoError.{ProtoError as Refusal};
ghost use Rattle.vx_proto.specs.declared.error.ProtoError.TheVariants.{OutOfMemory, TooDeep};
ghost use Rattle.vx_proto.specs.Schema.{Schema, schema_view};
ghost use Rattle.vx_proto.specs.Value.{Value, value_view};
ghost use Rattle.vx_proto.specs.Reads.{Reads, Cause, NestsOver, default_value};
ghost use Rattle.vx_proto.specs.Form.{HasForm};
ghost use Rattle.vx_proto.specs.Written.{written, nested};
ghost use Rattle.vx_proto.specs.Lawful.{is_lawful};

use crate::blob::Blob;
use crate::element::Entries;
use crate::error::ProtoError;
use crate::reading::message_of;
use crate::schema::Schema as Lists;
use crate::writing::{message_bytes, nests_within};
use std::alloc::Global;

/// At most this many messages nest, the root counted. Above it, reading and writing refuse with `TooDeep`.
const NESTED_MESSAGES: u8 = 100;

/// The bytes of a plain value that has the form of the schema. `TooDeep` where over 100 messages nest.
pub fn encoded(
    alloc: Global,
    schema: Lists,
    place: u32,
    slots: &[Entries],
) -> Result<Blob, ProtoError>
    ensures exact { IfOk result (λ bytes. bytes ≡ written (schema_view schema) place (value_view slots.now)) }
    ensures short { IfOk result (λ bytes. length bytes < 2 ^ 64) }
    ensures nests { IsOk result → nested (value_view slots.now) ≤ 100 }
    ensures cause { IfErr result (λ e. (e ≡ OutOfMemory) ⊎ ((e ≡ TooDeep) × (100 < nested (value_view slots.now)))) }
{
    if !nests_within(slots, NESTED_MESSAGES) {
        return Err(ProtoError::TooDeep);
    }
    let bytes = message_bytes(alloc, schema, place, slots)?;
    Ok(Blob::new(bytes))
}

/// A message of a schema. A type gives its schema, its place there, and the conversions between its
/// values and plain values; `decode` and `encode_to_vec` are then proved for it.
pub trait Message: Drop {
    /// The messages of the schema, each as its list of slots.
    ghost schema: { Schema };

    /// The index of this type's message among them.
    ghost place: { ℕ };

    /// The plain value that a message shows.
    ghost value: { Self → Value };

    /// The numbers of a value lie in the ranges of their types. A type without signed numbers needs no
    /// definition of its own.
    ghost fits: { Self → Type 0 } = { λ _. Unit {0} };

    /// The schema, as a constant of the code. It stands twice, here and as `schema`, since definitions cannot name a
    /// constant that holds references.
    fn lists() -> Lists
        ensures { schema_view result ≡ schema };

    /// The index of this type's message among the schema's.
    fn schema_place() -> u32
        ensures { result ≡ place };

    /// The message whose fields all have their defaults. It takes no memory; the allocator is for lists
    /// that grow later.
    fn default(alloc: Global) -> Self
        ensures same { value result ≡ default_value schema place }
        ensures in_range { fits result };

    /// The message of a plain value. The decoder calls it, with a value of the schema's form.
    fn from_value(alloc: Global, slots: Vec<Entries>) -> Result<Self, ProtoError>
        requires { HasForm schema place (value_view slots.items) }
        ensures same { IfOk result (λ m. value m ≡ value_view slots.items) }
        ensures in_range { IfOk result fits }
        ensures err { IsOkUnless result ProtoError.OutOfMemory };

    /// The plain value of this message. The only refusal is `OutOfMemory`.
    fn to_value(&self, alloc: Global) -> Result<Vec<Entries>, ProtoError>
        ensures same { IfOk result (λ v. value_view v.items ≡ value self.now) }
        ensures form { OnOk result (HasForm schema place (value self.now)) }
        ensures in_range { OnOk result (fits self.now) }
        ensures err { IsOkUnless result ProtoError.OutOfMemory };

    /// The bytes of this message's plain value. The body given here makes that value first; a type that
    /// holds its plain value replaces it, and copies nothing.
    fn encode_value(&self, alloc: Global) -> Result<Blob, ProtoError>
        ensures exact { IfOk result (λ bytes. bytes ≡ written schema place (value self.now)) }
        ensures short { IfOk result (λ bytes. length bytes < 2 ^ 64) }
        ensures form { OnOk result (HasForm schema place (value self.now)) }
        ensures nests { IsOk result → nested (value self.now) ≤ 100 }
        ensures cause { IfErr result (λ e. (e ≡ OutOfMemory) ⊎ ((e ≡ TooDeep) × (100 < nested (value self.now)))) }
    {
        let slots = self.to_value(alloc)?;
        encoded(alloc, Self::lists(), Self::schema_place(), &slots)
    }

    /// The schema is lawful: a test, which `refl` proves of a schema that is written out.
    ghost lawful: { IsTrue (is_lawful schema) };

    /// The type's message is one of the schema's: a test as well.
    ghost placed: { place < length schema };

    /// Messages of one plain value are one message, by what contracts see of them.
    ghost determined: { (m n : Self) → fits m → fits n → value m ≡ value n → m ≡ n };

    /// The message that the bytes show. `BadMessage`, `OutOfRange` or `TooDeep` exactly where one of their
    /// causes stands; where several do, any of them. `OutOfMemory` where allocation fails.
    final fn decode(alloc: Global, bytes: &[u8]) -> Result<Self, ProtoError>
        // What is read is what the bytes show.
        ensures found { IfOk result (λ m. Reads schema place bytes.now (value m)) }
        // What they show is read, unless allocation fails.
        ensures complete { (v : Value) → Reads schema place bytes.now v → MatchResult result (λ m. value m ≡ v) (λ e. e ≡ OutOfMemory) }
        // Each refusal comes only where its cause stands.
        ensures cause { IfErr result (λ e. (e ≡ OutOfMemory) ⊎ Cause schema 100 e place bytes.now) }
        // Where a cause stands, there is a refusal.
        ensures refused { (e : Refusal) → Cause schema 100 e place bytes.now → IsErr result }
        ensures in_range { IfOk result fits }
        // Bytes are refused as too deep only where over 100 messages nest in them, which never holds of what is read.
        ensures deep { IsErrOf result TooDeep → NestsOver schema 100 place bytes.now }
        ensures shallow { IsOk result → ¬ (NestsOver schema 100 place bytes.now) }
        ensures nests { IfOk result (λ m. nested (value m) ≤ 100) }
    {
        let slots = message_of(
            alloc,
            Self::lists(),
            NESTED_MESSAGES,
            Self::schema_place(),
            bytes,
        )?;
        Self::from_value(alloc, slots)
    }

    /// The bytes of the message: its one written form. `TooDeep` exactly where over 100 messages nest, the
    /// root counted; `OutOfMemory` where allocation fails.
    final fn encode_to_vec(&self, alloc: Global) -> Result<Blob, ProtoError>
        // What is written is the one written form.
        ensures exact { IfOk result (λ bytes. bytes ≡ written schema place (value self.now)) }
        // What is written shows the message.
        ensures read { IfOk result (λ bytes. Reads schema place bytes (value self.now)) }
        // It is refused exactly where messages nest too deep, unless allocation fails.
        ensures nests { IsOk result → nested (value self.now) ≤ 100 }
        ensures cause { IfErr result (λ e. (e ≡ OutOfMemory) ⊎ ((e ≡ TooDeep) × (100 < nested (value self.now)))) }
    {
        self.encode_value(alloc)
    }

    /// A message with equal fields. The only refusal is `OutOfMemory`.
    final fn clone(&self, alloc: Global) -> Result<Self, ProtoError>
        ensures same { IfOk result (λ m. m ≡ self.now) }
        ensures err { IsOkUnless result ProtoError.OutOfMemory }
    {
        let value = self.to_value(alloc)?;
        Self::from_value(alloc, value)
    }
}
