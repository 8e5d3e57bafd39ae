use std::test::Fail;
use vx_proto::{Blob, Field, Fields, Part, ProtoError};

#[test]
fn fields_in_order(rt: HostRuntime) {
    let mut fields = Fields::new(b"\x08\x05\x1a\x01\xaa\x0b\x08\x05");
    assert!(rt;
        matches!(
            fields.next(),
            Some(Ok(Field {
                number: 1,
                part: Part::Varint(5)
            }))
        )
    );
    assert!(rt;
        matches!(
            fields.next(),
            Some(Ok(Field {
                number: 3,
                part: Part::Len([0xaa])
            }))
        )
    );
    assert!(rt; matches!(fields.next(), Some(Err(ProtoError::BadMessage))));
    assert!(rt; fields.next().is_none());

    let mut fields = Fields::new(b"\x35\x01\x02\x00\x00\x39\x01\x00\x00\x00\x00\x00\x00\x80");
    assert!(rt;
        matches!(
            fields.next(),
            Some(Ok(Field {
                number: 6,
                part: Part::I32(0x201)
            }))
        )
    );
    assert!(rt;
        matches!(
            fields.next(),
            Some(Ok(Field {
                number: 7,
                part: Part::I64(0x8000_0000_0000_0001)
            }))
        )
    );
    assert!(rt; fields.next().is_none());
}

#[test]
fn blobs(rt: HostRuntime) -> Result<(), Fail> {
    let blob = Blob::copy_from(rt.alloc(), b"ab")?;
    assert_eq!(rt; blob.len(), 2);
    let copy = blob.clone(rt.alloc())?.into_vec();
    assert_eq!(rt; copy.as_slice(), blob.as_slice());
    assert!(rt; !Blob::new(copy).is_empty());
    Ok(())
}
