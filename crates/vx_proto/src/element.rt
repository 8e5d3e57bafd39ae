//! Plain values: what a message of any schema shows, and the calls by which a message type takes one
//! apart and puts one together.

ghost use Rattle.std.specs.Prelude.{◌≡◌, ◌<◌, ◌≤◌, ◌^◌, ℕ, pos, Some, None, ◌∷◌, [], IfOk, IsOkUnless, IsTrue, IsFalse, option_map};
ghost use Rattle.vx_proto.specs.Value.{view, value_view, entries_view, number, octets};
ghost use Rattle.vx_proto.specs.Parts.{entries_in, flag_number, number_of, octets_of, text_of_bytes, text_of, message_of, number_in, octets_in, text_in, message_in};
ghost use Rattle.vx_proto.specs.Signed.{IsInt32};
ghost use Rattle.std.specs.Int.{w64, cast_unsigned};

use crate::error::ProtoError;
use crate::signed::int32_of;
use std::alloc::Global;

/// What a member of a message holds. Which kind it has, the schema says.
#[derive(Debug, Drop)]
pub enum Element {
    /// A number as on the wire: 0 or 1 for a flag, the 64-bit two's complement for an int32, the zigzag
    /// number for a sint64.
    Number(u64),
    /// The bytes of a text or of bytes.
    Octets(Vec<u8>),
    /// A nested message: for each slot of its list, the members that count.
    Message(Vec<Entries>),
}

/// A member's field number, and what it holds.
pub type Entry = (u32, Element);

/// The members of a slot that count, in order.
pub type Entries = Vec<Entry>;

/// The members of the slot at this index; none past the last slot.
pub fn entries_at(slots: &[Entries], slot: usize) -> &[Entry]
    ensures { entries_view result.now ≡ entries_in (value_view slots.now) slot }
{
    match slots.get(slot) {
        Some(entries) => entries,
        None => &[],
    }
}

impl Element {
    /// The number, if the member holds one.
    pub fn as_number(&self) -> Option<u64>
        ensures { result ≡ number_of (view self.now) }
    {
        match self {
            Element::Number(n) => Some(*n),
            Element::Octets(_) => None,
            Element::Message(_) => None,
        }
    }

    /// The bytes, if the member holds a text or bytes.
    pub fn as_octets(&self) -> Option<&[u8]>
        ensures { option_map (λ s. s.now) result ≡ octets_of (view self.now) }
    {
        match self {
            Element::Number(_) => None,
            Element::Octets(s) => Some(s.as_slice()),
            Element::Message(_) => None,
        }
    }

    /// The text, if the member holds bytes that are UTF-8.
    pub fn as_text(&self) -> Option<&str>
        ensures { option_map (λ s. s.now) result ≡ text_of (view self.now) }
    {
        match self {
            Element::Number(_) => None,
            Element::Octets(s) => as_utf8(s.as_slice()),
            Element::Message(_) => None,
        }
    }

    /// The slots of the message, if the member holds one.
    pub fn as_message(&self) -> Option<&[Entries]>
        ensures { option_map (λ v. value_view v.now) result ≡ message_of (view self.now) }
    {
        match self {
            Element::Number(_) => None,
            Element::Octets(_) => None,
            Element::Message(slots) => Some(slots.as_slice()),
        }
    }
}

/// The bytes as a text, if they are UTF-8.
fn as_utf8(bytes: &[u8]) -> Option<&str>
    ensures { option_map (λ s. s.now) result ≡ text_of_bytes bytes.now }
{
    match simdutf8::basic::from_utf8(bytes) {
        Ok(text) => Some(text),
        Err(_) => None,
    }
}

/// The number that a slot's first member holds, if it is one.
pub fn number_at(slots: &[Entries], slot: usize) -> Option<u64>
    ensures { result ≡ number_in (entries_in (value_view slots.now) slot) }
{
    match entries_at(slots, slot) {
        [(_, element), ..] => element.as_number(),
        [] => None,
    }
}

/// The number that a slot's first member holds, or 0. This call and those after it serve members whose
/// kind the schema fixes, so the 0 stands for a value that no decoded message has.
pub fn u64_at(slots: &[Entries], slot: usize) -> u64
    ensures same { (n : ℕ) → number_in (entries_in (value_view slots.now) slot) ≡ Some n → result ≡ n }
    ensures none { number_in (entries_in (value_view slots.now) slot) ≡ None → result ≡ 0 }
{
    match number_at(slots, slot) {
        Some(n) => n,
        None => 0,
    }
}

/// The number that a slot's first member holds if it is below 2^32, else 0.
pub fn u32_at(slots: &[Entries], slot: usize) -> u32
    ensures same { (n : ℕ) → number_in (entries_in (value_view slots.now) slot) ≡ Some n → n < 2 ^ 32 → result ≡ n }
    ensures past { (n : ℕ) → number_in (entries_in (value_view slots.now) slot) ≡ Some n → 2 ^ 32 ≤ n → result ≡ 0 }
    ensures none { number_in (entries_in (value_view slots.now) slot) ≡ None → result ≡ 0 }
{
    let n = u64_at(slots, slot);
    if n < 1 << 32 { n as u32 } else { 0 }
}

/// The number that a slot's first member holds if it is below 256, else 0.
pub fn u8_at(slots: &[Entries], slot: usize) -> u8
    ensures same { (n : ℕ) → number_in (entries_in (value_view slots.now) slot) ≡ Some n → n < 256 → result ≡ n }
    ensures past { (n : ℕ) → number_in (entries_in (value_view slots.now) slot) ≡ Some n → 256 ≤ n → result ≡ 0 }
    ensures none { number_in (entries_in (value_view slots.now) slot) ≡ None → result ≡ 0 }
{
    let n = u64_at(slots, slot);
    if n < 256 { n as u8 } else { 0 }
}

/// The int32 that a slot's first member holds, or 0.
pub fn i32_at(slots: &[Entries], slot: usize) -> i32
    ensures same { (n : ℕ) → number_in (entries_in (value_view slots.now) slot) ≡ Some n → IsInt32 n → cast_unsigned w64 result ≡ n }
    ensures past { (n : ℕ) → number_in (entries_in (value_view slots.now) slot) ≡ Some n → ¬ (IsInt32 n) → result ≡ pos 0 }
    ensures none { number_in (entries_in (value_view slots.now) slot) ≡ None → result ≡ pos 0 }
{
    int32_of(u64_at(slots, slot))
}

/// Whether the slot's first member holds a number other than 0.
pub fn flag_at(slots: &[Entries], slot: usize) -> bool
    ensures same { (n : ℕ) → number_in (entries_in (value_view slots.now) slot) ≡ Some n → n < 2 → flag_number result ≡ n }
    ensures past { (n : ℕ) → number_in (entries_in (value_view slots.now) slot) ≡ Some n → 2 ≤ n → IsTrue result }
    ensures none { number_in (entries_in (value_view slots.now) slot) ≡ None → IsFalse result }
{
    u64_at(slots, slot) != 0
}

/// The bytes that a slot's first member holds, if they are a text or bytes.
pub fn octets_at(slots: &[Entries], slot: usize) -> Option<&[u8]>
    ensures { option_map (λ s. s.now) result ≡ octets_in (entries_in (value_view slots.now) slot) }
{
    match entries_at(slots, slot) {
        [(_, element), ..] => element.as_octets(),
        [] => None,
    }
}

/// The text that a slot's first member holds, if it is one.
pub fn text_at(slots: &[Entries], slot: usize) -> Option<&str>
    ensures { option_map (λ s. s.now) result ≡ text_in (entries_in (value_view slots.now) slot) }
{
    match entries_at(slots, slot) {
        [(_, element), ..] => element.as_text(),
        [] => None,
    }
}

/// The slots of the message that a slot's first member holds, if it is one.
pub fn message_at(slots: &[Entries], slot: usize) -> Option<&[Entries]>
    ensures { option_map (λ v. value_view v.now) result ≡ message_in (entries_in (value_view slots.now) slot) }
{
    match entries_at(slots, slot) {
        [(_, element), ..] => element.as_message(),
        [] => None,
    }
}

/// The element of a copy of these bytes, a text or bytes. The only refusal is `OutOfMemory`.
pub fn copied(alloc: Global, bytes: &[u8]) -> Result<Element, ProtoError>
    ensures same { IfOk result (λ element. view element ≡ octets bytes.now) }
    ensures err { IsOkUnless result ProtoError.OutOfMemory }
{
    Ok(Element::Octets(Vec::from_slice(alloc, bytes)?))
}

/// The element of a flag: the number 0 or 1.
pub fn flag(value: bool) -> Element
    ensures { view result ≡ number (flag_number value) }
{
    Element::Number(if value { 1 } else { 0 })
}

/// The slot of this one member, with its field number. The only refusal is `OutOfMemory`.
pub fn one(alloc: Global, number: u32, element: Element) -> Result<Entries, ProtoError>
    ensures same { IfOk result (λ entries. entries_view entries.items ≡ (number, view element) ∷ []) }
    ensures err { IsOkUnless result ProtoError.OutOfMemory }
{
    let mut entries = Vec::with_capacity(alloc, 1)?;
    entries.push((number, element))?;
    Ok(entries)
}

/// The slots of the message that a slot's first member holds, if it is one, moved out of the plain value and not
/// copied.
pub fn take_message(mut slots: Vec<Entries>, slot: usize) -> Option<Vec<Entries>>
    ensures { option_map (λ v. value_view v.items) result ≡ message_in (entries_in (value_view slots.items) slot) }
{
    if slot >= slots.len() {
        return None;
    }
    let mut entries = slots.swap_remove(slot);
    if entries.is_empty() {
        return None;
    }
    let (_, element) = entries.swap_remove(0);
    match element {
        Element::Number(_) => None,
        Element::Octets(_) => None,
        Element::Message(inner) => Some(inner),
    }
}
