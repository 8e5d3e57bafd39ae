//! The buffers that descriptors describe in a segment.

ghost use Rattle.std.specs.Prelude.{◌≡◌, ◌<◌, ◌^◌, length, IfOk, IfErr, OnOk};
ghost use Rattle.std.specs.Option.{option_copied};
ghost use Rattle.vx_serialized.specs.Message.{descriptors_of};
ghost use Rattle.vx_serialized.specs.Overrides.{overrides_in, buffer_with, buffers_with, IsCleanAt, AreCleanWith, RefusesWith};
ghost use Rattle.vx_serialized.specs.ReadingSteps.{RefusesBuffer};

use crate::error::WireError;
use crate::message::{Descriptor, first_descriptor};
use std::alloc::Global;
use std::collections::BTreeMap;
use vx_buffer::{Alignment, BufferHandle, BufferHandles, ByteBuffer};

/// The buffer that is given in place of a descriptor's, by the descriptor's number.
fn override_at(overrides: &BTreeMap<u32, ByteBuffer>, number: u64) -> Option<&ByteBuffer>
    ensures { option_copied result ≡ overrides_in overrides.now number }
{
    match u32::try_from(number) {
        Ok(number) => overrides.get(&number),
        Err(_) => None,
    }
}

/// The buffer of a descriptor whose padding begins at a place of the segment, or the one that is given in its place.
/// The place has 128 bits, since the paddings and lengths of descriptors whose range is not judged may pass 64.
fn take_buffer(
    alloc: Global,
    segment: &BufferHandle,
    descriptor: &Descriptor,
    place: u128,
    given: Option<&ByteBuffer>,
) -> Result<BufferHandle, WireError>
    requires { place < 2 ^ 100 }
    ensures ok { IfOk result (λ b. b ≡ buffer_with (option_copied given.entry) segment.now.bytes place descriptor.now) }
    ensures clean { OnOk result (IsCleanAt (option_copied given.entry) (length segment.now.bytes) place descriptor.now) }
    ensures cause { IfErr result (λ e. RefusesBuffer e (option_copied given.entry) (length segment.now.bytes) place descriptor.now) }
{
    if descriptor.exponent > Descriptor::MAX_EXPONENT {
        return Err(WireError::BadAlignment);
    }
    if descriptor.compression != 0 {
        return Err(WireError::Compressed);
    }
    let Some(alignment) = Alignment::from_exponent(descriptor.exponent) else {
        unreachable!();
    };
    match given {
        Some(buffer) => {
            let bytes = buffer.clone(alloc)?;
            Ok(BufferHandle::new_host(bytes.aligned(alignment)))
        }
        None => {
            let start = place + descriptor.padding as u128;
            let end = start + descriptor.len as u128;
            if end > segment.len() as u128 {
                return Err(WireError::OutOfBounds);
            }
            let range = start as usize..end as usize;
            let bytes = segment.as_host().slice(alloc, range)?;
            Ok(BufferHandle::new_host(bytes.aligned(alignment)))
        }
    }
}

/// The buffers of descriptors in a segment, except those that are given.
pub(crate) fn take_buffers(
    alloc: Global,
    segment: &BufferHandle,
    descriptors: &[u8],
    overrides: &BTreeMap<u32, ByteBuffer>,
) -> Result<BufferHandles, WireError>
    ensures buffers { IfOk result (λ bs. bs ≡ buffers_with (overrides_in overrides.now) segment.now.bytes 0 0 (descriptors_of descriptors.now)) }
    ensures clean { OnOk result (AreCleanWith (overrides_in overrides.now) (length segment.now.bytes) 0 0 (descriptors_of descriptors.now)) }
    ensures cause { IfErr result (λ e. RefusesWith e (overrides_in overrides.now) segment.now.bytes (descriptors_of descriptors.now)) }
{
    let mut buffers = BufferHandles::new(alloc);
    let mut place: u128 = 0;
    let mut number: u64 = 0;
    let mut left = descriptors;
    while let Some((descriptor, rest)) = first_descriptor(left) {
        let given = override_at(overrides, number);
        let buffer = take_buffer(alloc, segment, &descriptor, place, given)?;
        buffers.push(buffer)?;
        place += descriptor.padding as u128 + descriptor.len as u128;
        number += 1;
        left = rest;
    }
    Ok(buffers)
}
