//! Views of verified messages. An access to a part checks nothing, cannot fail and allocates nothing.

ghost use Rattle.std.specs.Prelude.{◌≡◌, ◌<◌, ◌≤◌, length, Some, IsSome, IsTrue};
ghost use Rattle.vx_flat.specs.Schema.{fields_of, is_lawful};
ghost use Rattle.vx_flat.specs.SchemaLists.{schema_of};
ghost use Rattle.vx_flat.specs.Places.{table_at as table_found, u32_at as number_of_four};
ghost use Rattle.vx_flat.specs.Reading.{table_shown, elements_shown, text_shown};
ghost use Rattle.vx_flat.specs.Parts.{elements_of_kind};
ghost use Rattle.vx_flat.specs.Parts as is;

mod opening;

use crate::reading::places::{
    FieldTable, behind, flag_at, number_at, place_of, tag_at, target_at, u16_at, u32_at,
};
use crate::schema::{FieldKind, SchemaLists, Width, size_of_struct, table_of_tag};
use crate::weight::Weight;
pub use opening::{verify, verify_to, verify_uncounted, verify_uncounted_to, view_at};
use std::str::from_utf8_unchecked;

/// A table of a verified message.
#[derive(Clone, Copy, Debug)]
pub struct View<'a> {
    message: &'a [u8],
    schema: &'static SchemaLists,
    table: u16,
    place: usize,
    fields: FieldTable,
    weight: Weight,
    ghost lawful: { IsTrue (is_lawful (schema_of schema.now)) },
    ghost found: { table_found message.now place (fields_of (schema_of schema.now) table) ≡ Some fields },
    ghost shown: { IsSome (table_shown (schema_of schema.now) message.now place table) },
}

/// A vector of a verified message.
#[derive(Clone, Copy, Debug)]
pub struct VectorView<'a> {
    message: &'a [u8],
    schema: &'static SchemaLists,
    kind: FieldKind,
    place: usize,
    count: u32,
    weight: Weight,
    ghost lawful: { IsTrue (is_lawful (schema_of schema.now)) },
    ghost counted: { count ≡ number_of_four message.now place },
    ghost shown: { IsSome (elements_of_kind (schema_of schema.now)
        (λ q T. table_shown (schema_of schema.now) message.now q T) message.now kind place) },
}

/// The value of a union.
#[derive(Clone, Copy, Debug)]
pub enum UnionPart<'a> {
    /// No member.
    None,
    /// A member: its tag and its table.
    Known(u8, View<'a>),
    /// A tag that the schema does not have. Its table was not verified.
    Unknown(u8),
}

impl<'a> View<'a> {
    ghost use Rattle.vx_flat.specs.Shows.{ShowsAt};
    ghost use Rattle.vx_flat.specs.Seen.{seen, schema_in, message_seen, weight_seen, table_seen, place_seen};

    /// The place of the table in the message, for [`view_at`].
    pub fn place(&self) -> usize
        ensures place { result ≡ place_seen self.now }
        ensures within { result < length (message_seen self.now) }
        ensures shows { ShowsAt (schema_in self.now) (message_seen self.now) result (table_seen self.now)
            (seen self.now) }
    {
        self.place
    }

    /// What the whole message weighs.
    pub fn weight(&self) -> Weight
        ensures { result ≡ weight_seen self.now }
    {
        self.weight
    }
}

impl<'a> View<'a> {
    ghost use Rattle.std.specs.Prelude.{◌+◌, true, false, MatchOption, IfSome, IfNone, None, if◌then◌else◌};
    ghost use Rattle.vx_flat.specs.Places.{place_of as placed, inline_size};
    ghost use Rattle.vx_flat.specs.Reading.{absent_shown, present_shown, member_shown};
    ghost use Rattle.vx_flat.specs.Schema.{members_of, table_of as table_of_tag};
    ghost use Rattle.vx_flat.specs.Value as value;
    ghost use Rattle.vx_flat.specs.Seen.{kind_in, kinds_in, part_in, vector_seen, seen, schema_in, table_seen, kind_seen, IsBelow, IsVectorBelow, IsPart, HasMember};
    ghost use Rattle.vx_flat.specs.declared.schema.FieldKind.TheVariants as kind;

    /// The fields of the view's table, in order.
    pub(crate) fn kinds(&self) -> &'static [FieldKind]
        ensures { result.now ≡ kinds_in self.now }
    {
        self.schema.fields(self.table)
    }

    /// The kind of the field whose first entry is `field`.
    fn kind(&self, field: usize) -> FieldKind
        requires { IsSome (kind_in self.now field) }
        ensures { kind_in self.now field ≡ Some result }
    {
        let mut entry: usize = 0;
        for kind in self.schema.fields(self.table) {
            if entry == field {
                return *kind;
            }
            entry += kind.slots();
        }
        unreachable!()
    }

    /// Whether a field that is not a union is absent. This is tested before the field's kind, which
    /// takes a search of the table's list.
    fn is_absent(&self, field: usize) -> bool
        ensures there { result ≡ false
            → IsSome (placed self.now.message.now self.now.place self.now.fields field) }
        ensures absent { result ≡ true → (k : FieldKind) → kind_in self.now field ≡ Some k
            → is.IsPlain k → part_in self.now field ≡ absent_shown k }
    {
        place_of(self.message, self.place, self.fields, field).is_none()
    }

    /// The place of a field that is present and not a union.
    fn place_in(&self, field: usize, kind: FieldKind) -> usize
        requires kind { kind_in self.now field ≡ Some kind }
        requires plain { is.IsPlain kind }
        requires there { IsSome (placed self.now.message.now self.now.place self.now.fields field) }
        ensures lies { result + inline_size kind ≤ length self.now.message.now }
        ensures later { self.now.place < result }
        ensures shown { present_shown (schema_in self.now)
            (λ q T. table_shown (schema_in self.now) self.now.message.now q T) self.now.message.now
            kind result ≡ Some (part_in self.now field) }
    {
        match place_of(self.message, self.place, self.fields, field) {
            None => unreachable!(),
            Some(place) => place,
        }
    }

    /// The place of a field that is not a union; None if it is absent.
    #[inline(always)]
    fn find(&self, field: usize, kind: FieldKind) -> Option<usize>
        requires kind { kind_in self.now field ≡ Some kind }
        requires plain { is.IsPlain kind }
        ensures absent { IfNone result (part_in self.now field ≡ absent_shown kind) }
        ensures lies { IfSome result (λ q. q + inline_size kind ≤ length self.now.message.now) }
        ensures later { IfSome result (λ q. self.now.place < q) }
        ensures shown { IfSome result (λ q. present_shown (schema_in self.now)
            (λ q T. table_shown (schema_in self.now) self.now.message.now q T) self.now.message.now
            kind q ≡ Some (part_in self.now field)) }
    {
        place_of(self.message, self.place, self.fields, field)
    }

    /// [`number`](View::number) for a known width.
    #[inline(always)]
    pub fn number_of(&self, field: usize, width: Width) -> u64
        requires { kind_in self.now field ≡ Some (kind.Number width) }
        ensures { part_in self.now field ≡ value.number result }
    {
        match self.find(field, FieldKind::Number(width)) {
            None => 0,
            Some(place) => number_at(width, self.message, place),
        }
    }

    /// [`opt_number`](View::opt_number) for a number of a known width.
    #[inline(always)]
    pub fn opt_number_of(&self, field: usize, width: Width) -> Option<u64>
        requires { kind_in self.now field ≡ Some (kind.OptNumber width) }
        ensures { MatchOption result (part_in self.now field ≡ value.absent)
            (λ n. part_in self.now field ≡ value.number n) }
    {
        match self.find(field, FieldKind::OptNumber(width)) {
            None => None,
            Some(place) => Some(number_at(width, self.message, place)),
        }
    }

    /// [`opt_number`](View::opt_number) for a flag.
    #[inline(always)]
    pub fn opt_flag(&self, field: usize) -> Option<u64>
        requires { kind_in self.now field ≡ Some kind.OptFlag }
        ensures { MatchOption result (part_in self.now field ≡ value.absent)
            (λ n. part_in self.now field ≡ value.number n) }
    {
        match self.find(field, FieldKind::OptFlag) {
            None => None,
            Some(place) => Some(flag_at(self.message, place)),
        }
    }

    /// [`bytes`](View::bytes) for numbers of a known width.
    #[inline(always)]
    pub fn numbers_of(&self, field: usize, width: Width) -> Option<&'a [u8]>
        requires { kind_in self.now field ≡ Some (kind.Vector width) }
        ensures { MatchOption result (part_in self.now field ≡ value.absent)
            (λ b. part_in self.now field ≡ value.elements b.now) }
    {
        match self.find(field, FieldKind::Vector(width)) {
            None => None,
            Some(place) => {
                let target = target_at(self.message, place);
                Some(elements_in(self.message, target, width.bytes()))
            }
        }
    }

    /// [`table`](View::table) for a known table.
    #[inline(always)]
    pub fn table_of(&self, field: usize, table: u16) -> Option<View<'a>>
        requires { kind_in self.now field ≡ Some (kind.Table table) }
        ensures part { MatchOption result (part_in self.now field ≡ value.absent)
            (λ w. part_in self.now field ≡ value.table (seen w)) }
        ensures below { IfSome result (λ w. IsBelow self.now w) }
        ensures kind { IfSome result (λ w. kind_in self.now field ≡ Some (kind.Table (table_seen w))) }
    {
        match self.find(field, FieldKind::Table(table)) {
            None => None,
            Some(place) => Some(self.below(target_at(self.message, place), table)),
        }
    }

    /// [`vector`](View::vector) for a known kind.
    #[inline(always)]
    pub fn vector_of(&self, field: usize, kind: FieldKind) -> Option<VectorView<'a>>
        requires kind { kind_in self.now field ≡ Some kind }
        requires vector { is.IsVector (Some kind) }
        ensures part { MatchOption result (part_in self.now field ≡ value.absent)
            (λ w. part_in self.now field ≡ vector_seen w) }
        ensures below { IfSome result (λ w. IsVectorBelow self.now w) }
        ensures kind { IfSome result (λ w. kind_in self.now field ≡ Some (kind_seen w)) }
    {
        let Some(place) = self.find(field, kind) else {
            return None;
        };
        let place = target_at(self.message, place);
        let count = u32_at(self.message, place);
        Some(VectorView {
            message: self.message,
            schema: self.schema,
            kind,
            place,
            count,
            weight: self.weight,
        })
    }

    /// The number in a field, as its bits.
    pub fn number(&self, field: usize) -> u64
        requires { is.IsNumber (kind_in self.now field) }
        ensures { part_in self.now field ≡ value.number result }
    {
        if self.is_absent(field) {
            return 0;
        }
        let FieldKind::Number(width) = self.kind(field) else {
            unreachable!();
        };
        let place = self.place_in(field, FieldKind::Number(width));
        number_at(width, self.message, place)
    }

    /// The flag in a field.
    pub fn flag(&self, field: usize) -> bool
        requires { is.IsFlag (kind_in self.now field) }
        ensures { part_in self.now field ≡ value.number (if result then 1 else 0) }
    {
        if self.is_absent(field) {
            return false;
        }
        self.message[self.place_in(field, FieldKind::Flag)] != 0
    }

    /// The number or flag in a field without a default.
    pub fn opt_number(&self, field: usize) -> Option<u64>
        requires { is.IsOptional (kind_in self.now field) }
        ensures { MatchOption result (part_in self.now field ≡ value.absent)
            (λ n. part_in self.now field ≡ value.number n) }
    {
        if self.is_absent(field) {
            return None;
        }
        match self.kind(field) {
            FieldKind::OptNumber(width) => {
                let place = self.place_in(field, FieldKind::OptNumber(width));
                Some(number_at(width, self.message, place))
            }
            FieldKind::OptFlag => {
                let place = self.place_in(field, FieldKind::OptFlag);
                Some(flag_at(self.message, place))
            }
            _ => unreachable!(),
        }
    }

    /// The bytes of the elements in a field of numbers or structs.
    pub fn bytes(&self, field: usize) -> Option<&'a [u8]>
        requires { is.IsBytes (kind_in self.now field) }
        ensures { MatchOption result (part_in self.now field ≡ value.absent)
            (λ b. part_in self.now field ≡ value.elements b.now) }
    {
        if self.is_absent(field) {
            return None;
        }
        match self.kind(field) {
            FieldKind::Vector(width) => {
                let place = self.place_in(field, FieldKind::Vector(width));
                let target = target_at(self.message, place);
                Some(elements_in(self.message, target, width.bytes()))
            }
            FieldKind::Structs(number) => {
                let place = self.place_in(field, FieldKind::Structs(number));
                let target = target_at(self.message, place);
                let size = size_of_struct(self.schema, number);
                Some(elements_in(self.message, target, size))
            }
            _ => unreachable!(),
        }
    }

    /// The string in a field.
    pub fn text(&self, field: usize) -> Option<&'a str>
        requires { is.IsText (kind_in self.now field) }
        ensures { MatchOption result (part_in self.now field ≡ value.absent)
            (λ t. part_in self.now field ≡ value.text t.now) }
    {
        if self.is_absent(field) {
            return None;
        }
        let place = self.place_in(field, FieldKind::Text);
        Some(text_in(self.message, target_at(self.message, place)))
    }

    /// A table of the message at a later place.
    fn below(&self, place: usize, table: u16) -> View<'a>
        requires shown { IsSome (table_shown (schema_in self.now) self.now.message.now place table) }
        requires later { self.now.place < place }
        ensures below { IsBelow self.now result }
        ensures table { result.table ≡ table }
        ensures seen { table_shown (schema_in self.now) self.now.message.now place table ≡ Some (seen result) }
    {
        let fields = fields_found(self.message, self.schema, place, table);
        View {
            message: self.message,
            schema: self.schema,
            table,
            place,
            fields,
            weight: self.weight,
        }
    }

    /// The table in a field.
    pub fn table(&self, field: usize) -> Option<View<'a>>
        requires { is.IsTable (kind_in self.now field) }
        ensures part { MatchOption result (part_in self.now field ≡ value.absent)
            (λ w. part_in self.now field ≡ value.table (seen w)) }
        ensures below { IfSome result (λ w. IsBelow self.now w) }
        ensures kind { IfSome result (λ w. kind_in self.now field ≡ Some (kind.Table (table_seen w))) }
    {
        if self.is_absent(field) {
            return None;
        }
        let FieldKind::Table(table) = self.kind(field) else {
            unreachable!();
        };
        let place = self.place_in(field, FieldKind::Table(table));
        Some(self.below(target_at(self.message, place), table))
    }

    /// The vector in a field.
    pub fn vector(&self, field: usize) -> Option<VectorView<'a>>
        requires { is.IsVector (kind_in self.now field) }
        ensures part { MatchOption result (part_in self.now field ≡ value.absent)
            (λ w. part_in self.now field ≡ vector_seen w) }
        ensures below { IfSome result (λ w. IsVectorBelow self.now w) }
        ensures kind { IfSome result (λ w. kind_in self.now field ≡ Some (kind_seen w)) }
    {
        if self.is_absent(field) {
            return None;
        }
        let kind = self.kind(field);
        let place = target_at(self.message, self.place_in(field, kind));
        let count = u32_at(self.message, place);
        Some(VectorView {
            message: self.message,
            schema: self.schema,
            kind,
            place,
            count,
            weight: self.weight,
        })
    }

    /// The tag of a union, and the place that its offset points to.
    fn member(&self, field: usize, union: u16) -> Option<(u8, usize)>
        requires { kind_in self.now field ≡ Some (kind.Union union) }
        ensures none { IfNone result (part_in self.now field ≡ value.absent) }
        ensures later { IfSome result (λ p. self.now.place < p.1) }
        ensures some { IfSome result (λ p. member_shown
            (λ q T. table_shown (schema_in self.now) self.now.message.now q T) p.1 p.0
            (table_of_tag (members_of (schema_in self.now) union) p.0)
            ≡ Some (part_in self.now field)) }
    {
        match place_of(self.message, self.place, self.fields, field + 1) {
            None => None,
            Some(next) => {
                let tag = tag_at(
                    self.message,
                    place_of(self.message, self.place, self.fields, field),
                );
                Some((tag, target_at(self.message, next)))
            }
        }
    }

    /// The value of a union.
    pub fn union_part(&self, field: usize) -> UnionPart<'a>
        requires { is.IsUnion (kind_in self.now field) }
        ensures part { IsPart self.now result (part_in self.now field) }
        ensures member { HasMember self.now field result }
    {
        let FieldKind::Union(union) = self.kind(field) else {
            unreachable!();
        };
        match self.member(field, union) {
            None => UnionPart::None,
            Some((tag, target)) => match table_of_tag(self.schema.members(union), tag) {
                None => UnionPart::Unknown(tag),
                Some(table) => UnionPart::Known(tag, self.below(target, table)),
            },
        }
    }
}

impl<'a> VectorView<'a> {
    ghost use Rattle.std.specs.Prelude.{◌+◌, ◌*◌};
    ghost use Rattle.vx_flat.specs.Seen.{vector_seen, seen, IsElement, kind_seen, count_seen, size_seen, member_seen, table_seen};
    ghost use Rattle.vx_flat.specs.declared.schema.FieldKind.TheVariants as kind;

    /// The number of elements.
    pub fn len(&self) -> usize
        ensures count { result ≡ count_seen self.now }
        ensures elements { is.HasElements (size_seen self.now) (vector_seen self.now) result }
    {
        self.count as usize
    }

    /// The size of an element.
    fn size(&self) -> usize
        ensures value { result ≡ size_seen self.now }
        ensures small { result ≤ 8000 }
    {
        match self.kind {
            FieldKind::Vector(width) => width.bytes(),
            FieldKind::Structs(number) => size_of_struct(self.schema, number),
            _ => 4,
        }
    }

    /// Member `member` of element `i`, as its bits. An element that is a number is its own member 0.
    #[inline]
    pub fn number(&self, i: usize, member: usize) -> u64
        requires within { i < count_seen self.now }
        requires member { IsSome (member_seen self.now member) }
        ensures { is.number_of (size_seen self.now) (vector_seen self.now) i (member_seen self.now member)
            ≡ Some result }
    {
        match self.kind {
            FieldKind::Vector(width) => {
                let bytes = elements_in(self.message, self.place, width.bytes());
                number_at(width, bytes, width.bytes() * i)
            }
            FieldKind::Structs(number) => {
                let size = size_of_struct(self.schema, number);
                let bytes = elements_in(self.message, self.place, size);
                let at = member_of(self.schema.widths(number), member);
                number_at(at.width, bytes, size * i + at.place)
            }
            _ => unreachable!(),
        }
    }

    /// The string of element `i`.
    pub fn text(&self, i: usize) -> &'a str
        requires within { i < count_seen self.now }
        requires kind { kind_seen self.now ≡ kind.Texts }
        ensures { is.text_in (vector_seen self.now) i ≡ Some result.now }
    {
        text_in(
            self.message,
            target_at(self.message, self.place + 4 + 4 * i),
        )
    }

    /// The table of element `i`.
    #[inline(always)]
    pub fn table(&self, i: usize) -> View<'a>
        requires within { i < count_seen self.now }
        requires kind { is.IsTables (kind_seen self.now) }
        ensures part { is.table_in (vector_seen self.now) i ≡ Some (seen result) }
        ensures below { IsElement self.now result }
        ensures kind { kind_seen self.now ≡ kind.Tables (table_seen result) }
    {
        let FieldKind::Tables(table) = self.kind else {
            unreachable!();
        };
        let place = target_at(self.message, self.place + 4 + 4 * i);
        let fields = fields_found(self.message, self.schema, place, table);
        View {
            message: self.message,
            schema: self.schema,
            table,
            place,
            fields,
            weight: self.weight,
        }
    }
}

/// A member of a struct: its offset and width.
#[derive(Clone, Copy, Debug)]
struct MemberPlace {
    place: usize,
    width: Width,
}

/// The member of a struct whose members have these widths.
fn member_of(widths: &[Width], member: usize) -> MemberPlace
    requires few { length widths.now ≤ 1000 }
    requires there { member < length widths.now }
    ensures { is.member_from widths.now 0 member ≡ Some (is.member_place result.place result.width) }
{
    let mut place: usize = 0;
    for (i, width) in widths.iter().enumerate() {
        if i == member {
            return MemberPlace {
                place,
                width: *width,
            };
        }
        place += width.bytes();
    }
    unreachable!()
}

/// The field table of a verified table, without another check.
#[inline(always)]
fn fields_found(message: &[u8], _schema: &SchemaLists, place: usize, table: u16) -> FieldTable
    requires { IsSome (table_shown (schema_of _schema.now) message.now place table) }
    ensures { table_found message.now place (fields_of (schema_of _schema.now) table) ≡ Some result }
{
    let fields = behind(message, place).unwrap_or(0);
    FieldTable {
        place: fields,
        len: u16_at(message, fields) as usize,
    }
}

/// The bytes of the elements of a verified vector.
fn elements_in(message: &[u8], place: usize, size: usize) -> &[u8]
    requires small { size ≤ 8000 }
    requires shown { IsSome (elements_shown message.now place size) }
    ensures { elements_shown message.now place size ≡ Some result.now }
{
    let len = size * u32_at(message, place) as usize;
    &message[place + 4..place + 4 + len]
}

/// A verified string.
fn text_in(message: &[u8], place: usize) -> &str
    requires { IsSome (text_shown message.now place) }
    ensures { text_shown message.now place ≡ Some result.now }
{
    let len = u32_at(message, place) as usize;
    // A verified string is UTF-8.
    unsafe { from_utf8_unchecked(&message[place + 4..place + 4 + len]) }
}
