use crate::bool_metadata::BoolMetadata;
use crate::samples::Trees;
use crate::tree_metadata::TreeMetadata;
use std::test::Fail;
use vx_proto::{
    Blob, DeserializeMetadata, EmptyMetadata, Message, PlainMessage, ProstMetadata, ProtoError,
    RawMetadata, SerializeMetadata,
};

#[test]
fn bool_offsets(rt: HostRuntime) -> Result<(), Fail> {
    for (offset, bytes) in [(0, b"".as_slice()), (5, b"\x08\x05"), (8, b"\x08\x08")] {
        let message = BoolMetadata { offset };
        let written = message.encode_to_vec(rt.alloc())?;
        assert_eq!(rt; written.as_slice(), bytes);
        assert_eq!(rt; BoolMetadata::decode(rt.alloc(), bytes)?.offset, offset);
        assert_eq!(rt; message.clone(rt.alloc())?.offset, offset);
    }
    assert_eq!(rt; BoolMetadata::default(rt.alloc()).offset, 0);
    Ok(())
}

#[test]
fn metadata_both_ways(rt: HostRuntime) -> Result<(), Fail> {
    let alloc = rt.alloc();
    assert!(rt; EmptyMetadata.clone()? == EmptyMetadata);
    assert!(rt; EmptyMetadata.serialize(alloc)?.is_empty());
    assert!(rt; EmptyMetadata::deserialize(alloc, b"").is_ok());
    assert!(rt;
        matches!(
            EmptyMetadata::deserialize(alloc, b"\x00"),
            Err(ProtoError::BadMessage)
        )
    );
    let text = format!(in alloc; "{}", EmptyMetadata)?;
    assert_eq!(rt; text.len(), 0);

    let raw = RawMetadata(Blob::copy_from(alloc, b"\xaa")?);
    assert_eq!(rt; raw.serialize(alloc)?.as_slice(), b"\xaa".as_slice());
    assert_eq!(rt;
        RawMetadata::deserialize(alloc, b"\xaa")?.as_slice(),
        b"\xaa".as_slice()
    );

    let metadata = ProstMetadata(BoolMetadata { offset: 5 });
    assert_eq!(rt; metadata.offset, 5);
    assert_eq!(rt;
        metadata.serialize(alloc)?.as_slice(),
        b"\x08\x05".as_slice()
    );
    assert_eq!(rt;
        ProstMetadata::<BoolMetadata>::deserialize(alloc, b"\x08\x05")?.offset,
        5
    );
    Ok(())
}

#[test]
fn trees_in_metadata(rt: HostRuntime) -> Result<(), Fail> {
    let alloc = rt.alloc();
    for bytes in [
        b"".as_slice(),
        b"\x0a\x00",
        b"\x0a\x06\x10\x07\x1a\x02\x10\x08",
    ] {
        let metadata = TreeMetadata::decode(alloc, bytes)?;
        assert_eq!(rt; metadata.encode_to_vec(alloc)?.as_slice(), bytes);
    }
    assert!(rt;
        matches!(
            TreeMetadata::decode(alloc, b"\x0a\x00\x0a\x00"),
            Err(ProtoError::BadMessage)
        )
    );
    Ok(())
}

/// A chain of 100 trees, as bytes. One more is past the limit on reading, and the chain is past that on writing where
/// metadata holds it.
#[test]
fn deepest_tree(rt: HostRuntime) -> Result<(), Fail> {
    let alloc = rt.alloc();
    let chain = super::rows::nested(alloc, 0x1a, 100)?;
    let tree = PlainMessage::<Trees>::decode(alloc, &chain)?;
    assert_eq!(rt; tree.encode_to_vec(alloc)?.as_slice(), chain.as_slice());
    let copy = tree.clone(alloc)?;
    let metadata = TreeMetadata { tree: Some(copy) };
    assert!(rt; matches!(metadata.encode_to_vec(alloc), Err(ProtoError::TooDeep)));
    Ok(())
}
