//! The bytes of a message under construction, and its unset links.

ghost use Rattle.std.specs.Prelude.{◌≡◌, ◌+◌, ◌++◌, ◌≤◌, ◌<◌, ◌^◌, [], length, reverse, take, OnOk, OnErr, None};
ghost use Rattle.vx_flat.specs.Building.{patch, targeted};

use crate::builder::slot::Slot;
use std::alloc::{AllocError, Global};

/// What was written so far.
#[derive(Drop)]
pub struct Message {
    /// The bytes so far. The offset of an unset link is 0.
    pub bytes: Vec<u8>,
    /// The number of blocks.
    pub count: u32,
    /// The unset links, the next one last.
    pub left: Vec<Slot>,
    /// The link that waits for the next block.
    pub waits: Option<Slot>,
}

/// Overwrites the four bytes at a place with a number.
fn set_number(bytes: &mut Vec<u8>, place: usize, number: u32)
    requires { place + 4 ≤ length bytes.old.items }
    ensures { bytes.new.items ≡ patch bytes.old.items place number }
{
    let second = number / 256;
    let third = second / 256;
    let fourth = third / 256;
    bytes[place] = (number % 256) as u8;
    bytes[place + 1] = (second % 256) as u8;
    bytes[place + 2] = (third % 256) as u8;
    bytes[place + 3] = (fourth % 256) as u8;
}

/// Pushes links in reverse. If memory runs out, nothing is pushed.
fn add_links(left: &mut Vec<Slot>, links: &mut Vec<Slot>) -> Result<(), AllocError>
    ensures added { OnOk result
        (reverse left.new.items ≡ links.old.items ++ reverse left.old.items) }
    ensures back { OnOk result (take (length left.old.items) left.new.items ≡ left.old.items) }
    ensures unchanged { OnErr result (left.new.items ≡ left.old.items) }
{
    links.reverse();
    left.extend_from_slice(links.as_slice())?;
    Ok(())
}

impl Message {
    ghost use Rattle.vx_flat.specs.BuilderView.{begun, SlotLies, IsSame};

    /// No blocks, over an empty list of bytes.
    pub fn new(alloc: Global, bytes: Vec<u8>) -> Message
        requires { bytes.items ≡ [] }
        ensures bytes { result.bytes.items ≡ [] }
        ensures count { result.count ≡ 0 }
        ensures left { result.left.items ≡ [] }
        ensures waits { result.waits ≡ None }
    {
        Message {
            bytes,
            count: 0,
            left: Vec::new(alloc),
            waits: None,
        }
    }

    /// Sets the offset of the link that waits, or, at the first block, the root offset.
    fn target(&mut self, target: usize)
        requires begun { 4 ≤ length self.old.bytes.items }
        requires lies { SlotLies self.old.waits (length self.old.bytes.items) }
        requires behind { SlotLies self.old.waits target }
        requires small { target < 2 ^ 32 }
        ensures bytes { self.new.bytes.items
            ≡ targeted self.old.count self.old.waits target self.old.bytes.items }
        ensures count { self.new.count ≡ self.old.count }
        ensures left { self.new.left.items ≡ self.old.left.items }
    {
        match self.waits {
            Some(link) => set_number(&mut self.bytes, link.place, (target - link.place) as u32),
            None => {
                if self.count == 0 {
                    set_number(&mut self.bytes, 0, target as u32);
                }
            }
        }
    }

    /// Appends a composed block with the padding before it, and its links, and sets the link that
    /// waits to it. If memory runs out, nothing changes.
    pub fn add(
        &mut self,
        block: &[u8],
        links: &mut Vec<Slot>,
        target: usize,
    ) -> Result<(), AllocError>
        requires some { 4 ≤ length self.old.bytes.items + length block.now }
        requires lies { SlotLies self.old.waits (length self.old.bytes.items) }
        requires behind { length self.old.bytes.items ≤ target }
        requires small { target < 2 ^ 32 }
        requires few { self.old.count < 2 ^ 31 }
        ensures bytes { OnOk result (self.new.bytes.items
            ≡ targeted self.old.count self.old.waits target (self.old.bytes.items ++ block.now)) }
        ensures count { OnOk result (self.new.count ≡ self.old.count + 1) }
        ensures left { OnOk result (reverse self.new.left.items
            ≡ links.old.items ++ reverse self.old.left.items) }
        ensures waits { OnOk result (self.new.waits ≡ None) }
        ensures unchanged { OnErr result (IsSame self.old self.new) }
    {
        let kept = self.left.len();
        if !links.is_empty() {
            add_links(&mut self.left, links)?;
        }
        if let Err(error) = self.bytes.extend_from_slice(block) {
            self.left.truncate(kept);
            return Err(error);
        }
        self.target(target);
        self.waits = None;
        self.count += 1;
        Ok(())
    }
}
