//! The places of the buffers of a written blob.

ghost use Rattle.std.specs.Prelude.{◌≡◌, ◌+◌, ◌≤◌, ◌<◌, ◌^◌, ◌++◌, length, replicate, IfOk, IfSome, IfNone, OnOk};
ghost use Rattle.vx_wire_tree.specs.Limits.{IsDescribable, AreDescribable};
ghost use Rattle.vx_serde.specs.MessageValue.{descriptor_bytes, descriptors_bytes};
ghost use Rattle.vx_serde.specs.Placing.{pad, descriptors_from, data_end};
ghost use Rattle.vx_serde.specs.WrittenBuffers.{pad_buffers, data_buffers, greatest_exponent};

use crate::borrowed_buffers::BorrowedBuffers;
use crate::options::SerializeOptions;
use std::alloc::{AllocError, Global};
use vx_buffer::{Alignment, BufferError, BufferHandle, ByteBuffer, ByteBuffers};
use vx_serialized::Descriptor;

/// Descriptors as bytes, and the position where the last buffer ends.
#[derive(Drop)]
pub(crate) struct LaidOut {
    pub(crate) descriptors: Vec<u8>,
    pub(crate) end: usize,
}

/// The number of bytes to skip at a position before what is aligned to 2^`exponent`: 0 where padding is not asked for.
pub(crate) fn pad_at(options: &SerializeOptions, exponent: u8, position: usize) -> usize
    requires { exponent ≤ 16 }
    ensures value { result ≡ pad options.now exponent position }
    ensures short { result < 2 ^ 16 }
{
    if !options.include_padding {
        return 0;
    }
    let alignment = 1usize << exponent;
    (alignment - position % alignment) % alignment
}

/// The descriptor of a buffer whose pad begins at this position.
fn descriptor_at(options: &SerializeOptions, position: usize, buffer: &BufferHandle) -> Descriptor
    requires { IsDescribable buffer.now }
    ensures padding { result.padding ≡ pad options.now buffer.now.exponent position }
    ensures exponent { result.exponent ≡ buffer.now.exponent }
    ensures compression { result.compression ≡ 0 }
    ensures len { result.len ≡ length buffer.now.bytes }
{
    let exponent = buffer.alignment().exponent();
    Descriptor {
        padding: pad_at(options, exponent, position) as u16,
        exponent,
        compression: 0,
        len: buffer.len() as u32,
    }
}

/// Appends a descriptor, in eight bytes.
fn push_descriptor(descriptor: Descriptor, out: &mut Vec<u8>) -> Result<(), AllocError>
    ensures { OnOk result (out.new.items ≡ out.old.items ++ descriptor_bytes descriptor) }
{
    out.extend_from_slice(&descriptor.padding.to_le_bytes())?;
    out.push(descriptor.exponent)?;
    out.push(descriptor.compression)?;
    out.extend_from_slice(&descriptor.len.to_le_bytes())?;
    Ok(())
}

/// The descriptors of buffers, the first of which may start at the offset. `None` where a buffer would end past the
/// positions of 64 bits.
pub(crate) fn describe(
    alloc: Global,
    options: &SerializeOptions,
    buffers: &BorrowedBuffers<'_>,
) -> Result<Option<LaidOut>, AllocError>
    requires { AreDescribable buffers.now }
    ensures descriptors { IfOk result (λ o. IfSome o (λ p. p.descriptors.items ≡ descriptors_bytes (descriptors_from options.now options.now.offset buffers.now))) }
    ensures end { IfOk result (λ o. IfSome o (λ p. p.end ≡ data_end options.now options.now.offset buffers.now)) }
    ensures none { IfOk result (λ o. IfNone o (2 ^ 64 ≤ data_end options.now options.now.offset buffers.now)) }
{
    let mut descriptors = Vec::new(alloc);
    let mut position = options.offset;
    for i in 0..buffers.len() {
        let buffer = buffers.get(i);
        let descriptor = descriptor_at(options, position, buffer);
        let size = descriptor.padding as usize + descriptor.len as usize;
        let Some(end) = position.checked_add(size) else {
            return Ok(None);
        };
        push_descriptor(descriptor, &mut descriptors)?;
        position = end;
    }
    Ok(Some(LaidOut {
        descriptors,
        end: position,
    }))
}

/// This many zeros.
fn zeros(alloc: Global, count: usize) -> Result<Vec<u8>, AllocError>
    ensures { IfOk result (λ v. v.items ≡ replicate count 0) }
{
    let mut zeros = Vec::new(alloc);
    for _ in 0..count {
        zeros.push(0)?;
    }
    Ok(zeros)
}

/// Appends a pad of this many zeros; nothing where it is empty.
pub(crate) fn push_pad(
    alloc: Global,
    count: usize,
    out: &mut ByteBuffers,
) -> Result<(), BufferError>
    ensures { OnOk result (out.new ≡ out.old ++ pad_buffers count) }
{
    if count == 0 {
        return Ok(());
    }
    out.push(ByteBuffer::from_vec(zeros(alloc, count)?)?)
}

/// Appends the buffers, each after its pad and with no alignment: the pads already place them.
pub(crate) fn push_data(
    alloc: Global,
    options: &SerializeOptions,
    buffers: &BorrowedBuffers<'_>,
    out: &mut ByteBuffers,
) -> Result<(), BufferError>
    requires describable { AreDescribable buffers.now }
    requires fits { data_end options.now options.now.offset buffers.now < 2 ^ 64 }
    ensures { OnOk result (out.new ≡ out.old ++ data_buffers options.now options.now.offset buffers.now) }
{
    let mut position = options.offset;
    for i in 0..buffers.len() {
        let buffer = buffers.get(i);
        let padding = pad_at(options, buffer.alignment().exponent(), position);
        push_pad(alloc, padding, out)?;
        position += padding + buffer.len();
        let data = buffer.to_host_sync(alloc)?;
        out.push(data.aligned(Alignment::none()))?;
    }
    Ok(())
}

/// The greatest alignment of these buffers, at least 8 bytes, which is the message's.
pub(crate) fn greatest_alignment(buffers: &BorrowedBuffers<'_>) -> Alignment
    ensures { result ≡ greatest_exponent 3 buffers.now }
{
    let mut greatest = eight();
    for i in 0..buffers.len() {
        let alignment = buffers.get(i).alignment();
        if !greatest.is_aligned_to(alignment) {
            greatest = alignment;
        }
    }
    greatest
}

/// The alignment of the message.
fn eight() -> Alignment
    ensures { result ≡ 3 }
{
    match Alignment::from_exponent(3) {
        Some(alignment) => alignment,
        None => unreachable!(),
    }
}
