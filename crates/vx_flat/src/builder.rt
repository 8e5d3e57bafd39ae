//! Writes a message block by block.

ghost use Rattle.std.specs.Prelude.{◌≡◌, [], ◌<◌, ◌≤◌, ◌^◌, true, false, length, None};
ghost use Rattle.std.specs.Prelude.{IfOk, IfErr, OnOk, IsOk, IsErrOf};
ghost use Rattle.vx_flat.specs.Schema.{Schema};
ghost use Rattle.vx_flat.specs.Value.{Fields};
ghost use Rattle.vx_flat.specs.IsOf.{IsOf};
ghost use Rattle.vx_flat.specs.Layout.{layout};
ghost use Rattle.vx_flat.specs.Pieces.{pieces, table_piece, elements_piece, links_piece, text_piece, AreEntries};
ghost use Rattle.vx_flat.specs.Building.{nothing_by, nothing_built, with_piece, with_pieces, waiting};
ghost use Rattle.vx_flat.specs.Building.{Takes, IsNext, RefusesPiece};
ghost use Rattle.vx_flat.specs.PieceView.{vector_piece, IsVector};

mod composing;
pub(crate) mod entries;
mod known;
mod message;
pub(crate) mod piece;
mod slot;

use crate::buffer::FlatBuffer;
use crate::builder::composing::{
    is_shared, next_start, push_element_slots, push_elements, push_entry_slots, push_front,
    push_links, push_table, push_text, table_offsets,
};
use crate::builder::known::FieldTables;
use crate::builder::message::Message;
use crate::builder::piece::{BlockField, BlockVector, LinkKind};
use crate::builder::slot::Slot;
use crate::error::FlatError;
use crate::limits::MAX_MESSAGE;
use crate::writing::block_offsets::plain_offsets;
use crate::writing::field_tables::{push_field_table, push_parts};
use std::alloc::Global;
use std::marker::Model;
use std::mem::replace;

/// Writes a message block by block: each table, vector and string is a block.
///
/// The first block is the root table. After a block come the blocks that its links point to, depth
/// first, in the order of its fields or elements. [`link`] names the link that points to the next
/// block, so it is called before each block but the first. Unlike FlatBuffers' builder, which writes
/// from the end, this one writes a table before its children.
///
/// A table shares the first earlier field table that equals its own byte for byte.
///
/// # Errors
///
/// [`FlatError::OutOfMemory`], which leaves the builder unchanged, and
/// [`FlatError::MessageTooLong`] if the message would have more than
/// [`MAX_MESSAGE`](crate::MAX_MESSAGE) bytes. After that the builder has failed: each later call
/// gives that error too, and [`link`] does nothing.
///
/// [`link`]: Builder::link
#[derive(Drop)]
pub struct Builder {
    alloc: Global,
    message: Message,
    known: FieldTables,
    shares: bool,
    failed: bool,
    /// Buffers for the block that is composed, kept so that each block needs no new ones: its bytes
    /// and links, and for a table its distances, its bytes after the first four and its field table.
    block: Vec<u8>,
    links: Vec<Slot>,
    distances: Vec<u8>,
    own: Vec<u8>,
    fields: Vec<u8>,
    /// A buffer for the entries of a table.
    entries: Vec<BlockField>,
}

impl Model for Builder {
    ghost use Rattle.std.specs.Prelude.{◌<◌, ◌^◌, length};
    ghost use Rattle.vx_flat.specs.Building.{Built};
    ghost use Rattle.vx_flat.specs.BuilderView.{built, begun, IsOpen};

    ghost Value = { Built };

    ghost view = { λ b. built b.message b.known b.shares b.failed };

    ghost invariant = { λ b. IsOpen b.message × (length (begun b.message.bytes.items) < 2 ^ 31) };
}

impl Builder {
    /// A builder without blocks.
    pub fn new(alloc: Global) -> Builder
        ensures { result ≡ nothing_built }
    {
        Builder::sharing(alloc, true)
    }

    /// A builder without blocks, with room for `capacity` bytes if that can be allocated. A message
    /// that grows step by step fragments the heap.
    pub fn with_room(alloc: Global, capacity: usize) -> Builder
        ensures { result ≡ nothing_built }
    {
        Builder::over(alloc, no_bytes(alloc, capacity), true)
    }

    /// A builder without blocks. With `shares`, equal field tables are shared.
    pub(crate) fn sharing(alloc: Global, shares: bool) -> Builder
        ensures { result ≡ nothing_by shares }
    {
        Builder::over(alloc, Vec::new(alloc), shares)
    }

    // A builder without blocks, with an empty buffer.
    fn over(alloc: Global, bytes: Vec<u8>, shares: bool) -> Builder
        requires { bytes.items ≡ [] }
        ensures { result ≡ nothing_by shares }
    {
        Builder {
            alloc,
            message: Message::new(alloc, bytes),
            known: FieldTables::new(alloc),
            shares,
            failed: false,
            block: Vec::new(alloc),
            links: Vec::new(alloc),
            distances: Vec::new(alloc),
            own: Vec::new(alloc),
            fields: Vec::new(alloc),
            entries: Vec::new(alloc),
        }
    }

    /// An empty list for the entries of a table. [`give_back`](Builder::give_back) keeps its memory for
    /// the next table.
    pub(crate) fn take_entries(&mut self) -> Vec<BlockField>
        ensures same { self.new ≡ self.old }
        ensures none { result.items ≡ [] }
    {
        let mut entries = replace(&mut self.entries, Vec::new(self.alloc));
        entries.clear();
        entries
    }

    /// Keeps the memory of a list of entries.
    pub(crate) fn give_back(&mut self, entries: Vec<BlockField>)
        ensures { self.new ≡ self.old }
    {
        self.entries = entries;
    }

    /// [`table`](Builder::table), whatever link waits.
    pub(crate) fn put_table(&mut self, fields: &[BlockField]) -> Result<u32, FlatError>
        requires few { length fields.now ≤ 1000 }
        requires entries { AreEntries false fields.now }
        ensures number { IfOk result (λ n. n ≡ self.old.count) }
        ensures written { OnOk result (self.new ≡ with_piece self.old (table_piece fields.now)) }
        ensures fits { IsOk result → length self.new.bytes < 2 ^ 31 }
        ensures works { IsOk result → self.old.failed ≡ false }
        ensures refused { IfErr result
            (λ e. RefusesPiece self.old (table_piece fields.now) e self.new) }
        ensures failed { self.old.failed ≡ true → IsErrOf result FlatError.MessageTooLong }
    {
        if self.failed {
            return Err(FlatError::MessageTooLong);
        }
        let number = self.message.count;
        let start = next_start(&self.message.bytes);
        self.distances.clear();
        self.own.clear();
        let end = push_parts(fields, &mut self.distances, &mut self.own)?;
        self.fields.clear();
        push_field_table(fields.len(), end, &self.distances, &mut self.fields)?;
        let offsets = table_offsets(start, fields.len(), end, self.known.find(&self.fields));
        if offsets.end > MAX_MESSAGE {
            self.failed = true;
            return Err(FlatError::MessageTooLong);
        }
        self.block.clear();
        push_front(&self.message.bytes, start, &mut self.block)?;
        push_table(
            offsets,
            fields.len(),
            &self.fields,
            &self.own,
            &mut self.block,
        )?;
        self.links.clear();
        push_entry_slots(fields, number, offsets.target, &mut self.links)?;
        let interns = is_shared(self.shares, offsets);
        self.known.intern(interns, &self.fields, offsets.fields)?;
        if let Err(error) = self
            .message
            .add(&self.block, &mut self.links, offsets.target)
        {
            self.known.forget(interns);
            return Err(FlatError::from(error));
        }
        Ok(number)
    }

    /// Writes a table, given the entries of its field table. Returns the number of its block, for
    /// [`link`](Builder::link).
    pub fn table(&mut self, fields: &[BlockField]) -> Result<u32, FlatError>
        requires few { length fields.now ≤ 1000 }
        requires entries { AreEntries false fields.now }
        requires takes { Takes LinkKind.Table self.old }
        ensures number { IfOk result (λ n. n ≡ self.old.count) }
        ensures written { OnOk result (self.new ≡ with_piece self.old (table_piece fields.now)) }
        ensures fits { IsOk result → length self.new.bytes < 2 ^ 31 }
        ensures works { IsOk result → self.old.failed ≡ false }
        ensures refused { IfErr result
            (λ e. RefusesPiece self.old (table_piece fields.now) e self.new) }
        ensures failed { self.old.failed ≡ true → IsErrOf result FlatError.MessageTooLong }
    {
        self.put_table(fields)
    }

    /// Writes a vector of numbers or structs of `size` bytes each.
    pub(crate) fn elements(&mut self, size: usize, bytes: &[u8]) -> Result<(), FlatError>
        ensures written { OnOk result (self.new ≡ with_piece self.old (elements_piece size bytes.now)) }
        ensures fits { IsOk result → length self.new.bytes < 2 ^ 31 }
        ensures works { IsOk result → self.old.failed ≡ false }
        ensures refused { IfErr result
            (λ e. RefusesPiece self.old (elements_piece size bytes.now) e self.new) }
        ensures failed { self.old.failed ≡ true → IsErrOf result FlatError.MessageTooLong }
    {
        if self.failed {
            return Err(FlatError::MessageTooLong);
        }
        let start = next_start(&self.message.bytes);
        let offsets = plain_offsets(start, 4 + bytes.len());
        if offsets.end > MAX_MESSAGE {
            self.failed = true;
            return Err(FlatError::MessageTooLong);
        }
        self.block.clear();
        push_front(&self.message.bytes, start, &mut self.block)?;
        push_elements(offsets, size, bytes, &mut self.block)?;
        self.links.clear();
        self.message
            .add(&self.block, &mut self.links, offsets.target)?;
        Ok(())
    }

    /// Writes a vector of `count` links of a kind.
    pub(crate) fn links(&mut self, kind: LinkKind, count: usize) -> Result<(), FlatError>
        requires { count ≤ 2 ^ 61 }
        ensures written { OnOk result (self.new ≡ with_piece self.old (links_piece kind count)) }
        ensures fits { IsOk result → length self.new.bytes < 2 ^ 31 }
        ensures works { IsOk result → self.old.failed ≡ false }
        ensures refused { IfErr result
            (λ e. RefusesPiece self.old (links_piece kind count) e self.new) }
        ensures failed { self.old.failed ≡ true → IsErrOf result FlatError.MessageTooLong }
    {
        if self.failed {
            return Err(FlatError::MessageTooLong);
        }
        let start = next_start(&self.message.bytes);
        let offsets = plain_offsets(start, 4 + 4 * count);
        if offsets.end > MAX_MESSAGE {
            self.failed = true;
            return Err(FlatError::MessageTooLong);
        }
        self.block.clear();
        push_front(&self.message.bytes, start, &mut self.block)?;
        let count = count as u32;
        push_links(offsets, count, &mut self.block)?;
        self.links.clear();
        push_element_slots(
            kind,
            count,
            self.message.count,
            offsets.target + 4,
            &mut self.links,
        )?;
        self.message
            .add(&self.block, &mut self.links, offsets.target)?;
        Ok(())
    }

    /// Writes a vector. Returns the number of its block, for [`link`](Builder::link).
    pub fn vector(&mut self, elements: BlockVector<'_>) -> Result<u32, FlatError>
        requires elements { IsVector elements }
        requires takes { Takes LinkKind.Vector self.old }
        ensures number { IfOk result (λ n. n ≡ self.old.count) }
        ensures written { OnOk result (self.new ≡ with_piece self.old (vector_piece elements.entry)) }
        ensures fits { IsOk result → length self.new.bytes < 2 ^ 31 }
        ensures works { IsOk result → self.old.failed ≡ false }
        ensures refused { IfErr result
            (λ e. RefusesPiece self.old (vector_piece elements.entry) e self.new) }
        ensures failed { self.old.failed ≡ true → IsErrOf result FlatError.MessageTooLong }
    {
        let number = self.message.count;
        match elements {
            BlockVector::Numbers { width, bytes } => self.elements(width as usize, bytes)?,
            BlockVector::Links { kind, count } => self.links(kind, count as usize)?,
        }
        Ok(number)
    }

    /// [`string`](Builder::string), whatever link waits.
    pub(crate) fn put_text(&mut self, text: &str) -> Result<(), FlatError>
        ensures written { OnOk result (self.new ≡ with_piece self.old (text_piece text.now)) }
        ensures fits { IsOk result → length self.new.bytes < 2 ^ 31 }
        ensures works { IsOk result → self.old.failed ≡ false }
        ensures refused { IfErr result
            (λ e. RefusesPiece self.old (text_piece text.now) e self.new) }
        ensures failed { self.old.failed ≡ true → IsErrOf result FlatError.MessageTooLong }
    {
        if self.failed {
            return Err(FlatError::MessageTooLong);
        }
        let start = next_start(&self.message.bytes);
        let offsets = plain_offsets(start, 5 + text.len());
        if offsets.end > MAX_MESSAGE {
            self.failed = true;
            return Err(FlatError::MessageTooLong);
        }
        self.block.clear();
        push_front(&self.message.bytes, start, &mut self.block)?;
        push_text(offsets, text.as_bytes(), &mut self.block)?;
        self.links.clear();
        self.message
            .add(&self.block, &mut self.links, offsets.target)?;
        Ok(())
    }

    /// Writes a string.
    pub fn string(&mut self, text: &str) -> Result<(), FlatError>
        requires { Takes LinkKind.Text self.old }
        ensures written { OnOk result (self.new ≡ with_piece self.old (text_piece text.now)) }
        ensures fits { IsOk result → length self.new.bytes < 2 ^ 31 }
        ensures works { IsOk result → self.old.failed ≡ false }
        ensures refused { IfErr result
            (λ e. RefusesPiece self.old (text_piece text.now) e self.new) }
        ensures failed { self.old.failed ≡ true → IsErrOf result FlatError.MessageTooLong }
    {
        self.put_text(text)
    }

    /// Lets the next link point to the next block. The link is named by the number of the block that
    /// has it and by its index among the entries or elements. The index of a union's link is that of
    /// its offset.
    pub fn link(&mut self, _block: u32, _index: usize)
        requires idle { self.old.failed ≡ false → self.old.waits ≡ None }
        requires next { self.old.failed ≡ false → IsNext self.old.left _block _index }
        ensures waits { self.old.failed ≡ false → self.new ≡ waiting self.old }
        ensures failed { self.old.failed ≡ true → self.new ≡ self.old }
    {
        if !self.failed {
            self.go_on();
        }
    }

    /// Lets the next link, if there is one, point to the next block.
    pub(crate) fn go_on(&mut self)
        ensures { self.new ≡ waiting self.old }
    {
        self.message.waits = self.message.left.pop();
    }

    /// The message, of at least one block.
    pub(crate) fn into_message(self) -> FlatBuffer
        requires { 0 < self.count }
        ensures built { result ≡ self.bytes }
        ensures fits { length result < 2 ^ 31 }
    {
        let Builder { message, .. } = self;
        let Message { bytes, .. } = message;
        FlatBuffer::new(bytes)
    }

    /// The message. If the blocks are those of a value, it is the value's layout.
    pub fn finish(self, _alloc: Global) -> Result<FlatBuffer, FlatError>
        requires written { self.failed ≡ false → 0 < self.count }
        requires linked { self.failed ≡ false → self.left ≡ [] }
        requires idle { self.failed ≡ false → self.waits ≡ None }
        ensures built { IfOk result (λ b. b ≡ self.bytes) }
        ensures layout { IfOk result (λ b. (s : Schema) (v : Fields) → IsOf s v
            → self ≡ with_pieces (nothing_by self.shares) (pieces s v) → b ≡ layout self.shares s v) }
        ensures fits { IfOk result (λ b. length b < 2 ^ 31) }
        ensures works { IsOk result → self.failed ≡ false }
        ensures cause { IfErr result (λ e. e ≡ FlatError.MessageTooLong) }
        ensures failed { self.failed ≡ true → IsErrOf result FlatError.MessageTooLong }
        ensures complete { self.failed ≡ false → IsOk result }
    {
        let Builder {
            message,
            failed,
            ..
        } = self;
        if failed {
            return Err(FlatError::MessageTooLong);
        }
        let Message { bytes, .. } = message;
        Ok(FlatBuffer::new(bytes))
    }
}

// An empty list, with room for `capacity` bytes if that can be allocated.
fn no_bytes(alloc: Global, capacity: usize) -> Vec<u8>
    ensures { result.items ≡ [] }
{
    match Vec::with_capacity(alloc, capacity) {
        Ok(bytes) => bytes,
        Err(_) => Vec::new(alloc),
    }
}
