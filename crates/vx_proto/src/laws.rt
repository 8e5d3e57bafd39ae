//! The laws of this crate's definitions, for each schema at once. The functions have empty bodies: a
//! caller learns a law from the clause of its function.

ghost use Rattle.std.specs.Prelude.{◌≡◌, ◌<◌, ◌≤◌, ◌^◌, ◌↔◌, ℕ, ℤ, List, [], ◌++◌, length, IsTrue, Some, true};
ghost use Rattle.vx_proto.specs.Wire.{Field, field_at, cut, BeginsWith, SpellsMessage};
ghost use Rattle.vx_proto.specs.declared.error.ProtoError.{ProtoError as Refusal};
ghost use Rattle.vx_proto.specs.Schema.{Schema};
ghost use Rattle.vx_proto.specs.Value.{Value};
ghost use Rattle.vx_proto.specs.declared.error.ProtoError.TheVariants.{TooDeep};
ghost use Rattle.vx_proto.specs.Reads.{Reads, Cause, NestsOver, default_value};
ghost use Rattle.vx_proto.specs.Form.{HasForm};
ghost use Rattle.vx_proto.specs.Written.{written, nested};
ghost use Rattle.vx_proto.specs.Lawful.{is_lawful};
ghost use Rattle.vx_proto.specs.Signed.{zigzag};

/// At most one value is read from given bytes.
pub fn one_value()
    ensures { (s : Schema) (place : ℕ) (bytes : List ℕ) (v w : Value) → Reads s place bytes v → Reads s place bytes w → v ≡ w }
{}

/// Where the cause of a refusal stands, no value is read.
pub fn caused_is_unread()
    ensures { (s : Schema) (place : ℕ) (bytes : List ℕ) (v : Value) (e : Refusal) → Reads s place bytes v → Cause s 100 e place bytes → ⊥ }
{}

/// The written form of a value of a lawful schema reads as that value, and by [`one_value`] as no other, where at most 100
/// messages nest in it and the form has fewer than 2^64 bytes.
pub fn written_is_read()
    ensures { (s : Schema) (place : ℕ) (v : Value) → IsTrue (is_lawful s) → HasForm s place v → nested v ≤ 100 → length (written s place v) < 2 ^ 64 → Reads s place (written s place v) v }
{}

/// No bytes read as the value of a message without fields: each plain member at its default, and
/// nothing else.
pub fn nothing_is_the_default()
    ensures { (s : Schema) (place : ℕ) → Reads s place [] (default_value s place) }
{}

/// A lawful schema may be continued by more messages, and its own keep their values, their bytes and
/// their causes. So a message type can nest one of another schema, whose messages come first in its own.
pub fn longer_schema()
    ensures form { (s t : Schema) (place : ℕ) (v : Value) → IsTrue (is_lawful s) → place < length s → HasForm s place v ↔ HasForm (s ++ t) place v }
    ensures read { (s t : Schema) (place : ℕ) (bytes : List ℕ) (v : Value) → IsTrue (is_lawful s) → place < length s → Reads s place bytes v ↔ Reads (s ++ t) place bytes v }
    ensures cause { (s t : Schema) (place : ℕ) (bytes : List ℕ) (e : Refusal) → IsTrue (is_lawful s) → place < length s → Cause s 100 e place bytes ↔ Cause (s ++ t) 100 e place bytes }
    ensures written { (s t : Schema) (place : ℕ) (v : Value) → IsTrue (is_lawful s) → place < length s → written s place v ≡ written (s ++ t) place v }
{}

/// Signed numbers with the same zigzag number are equal.
pub fn one_zigzag()
    ensures { (a b : ℤ) → zigzag a ≡ zigzag b → a ≡ b }
{}

/// Bytes are refused as too deep for the one reason that over 100 messages nest in them.
pub fn deep_nests_over()
    ensures { (s : Schema) (place : ℕ) (bytes : List ℕ) → Cause s 100 TooDeep place bytes ↔ NestsOver s 100 place bytes }
{}

/// What is cut from the front of bytes is what is spelled there: a field, and the bytes after it.
pub fn front_is_spelled()
    ensures cut { (bytes rest : List ℕ) (f : Field) → field_at bytes ≡ Some (f, rest) → BeginsWith bytes f rest }
    ensures again { (bytes rest : List ℕ) (f : Field) → BeginsWith bytes f rest → field_at bytes ≡ Some (f, rest) }
    ensures whole { (bytes : List ℕ) → (cut bytes).1 ≡ true → SpellsMessage bytes (cut bytes).0 }
    ensures all { (bytes : List ℕ) (fs : List Field) → SpellsMessage bytes fs → cut bytes ≡ (fs, true) }
{}
