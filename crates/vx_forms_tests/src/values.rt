use crate::sizes::take_sizes;
use std::test::Fail;
use vx_forms::{
    ReadError, push_octets, push_text, push_u8, push_u32, push_u64, take_constant, take_count,
    take_octets, take_text, take_u8, take_u32, take_u64,
};

#[test]
fn numbers(rt: HostRuntime) {
    assert!(rt; matches!(take_u8(b"\x07\x08"), Ok((7, [8]))));
    assert!(rt; matches!(take_u8(b""), Err(ReadError::Short)));
    assert!(rt; matches!(take_u32(b"\x01\x02\x03\x04\x05"), Ok((0x0403_0201, [5]))));
    assert!(rt; matches!(take_u32(b"\x01\x02\x03"), Err(ReadError::Short)));
    assert!(rt;
        matches!(
            take_u64(b"\x01\x00\x00\x00\x00\x00\x00\x80"),
            Ok((0x8000_0000_0000_0001, []))
        )
    );
    assert!(rt; matches!(take_count(b"\x03\x00\x00\x00", 1, 3), Ok((3, []))));
    assert!(rt; matches!(take_count(b"\x04\x00\x00\x00", 1, 3), Err(ReadError::Wrong)));
}

#[test]
fn octets(rt: HostRuntime) {
    assert!(rt;
        matches!(
            take_octets(b"\x02\x00\x00\x00\xff\xfe\x05", 1, 2),
            Ok(([0xff, 0xfe], [5]))
        )
    );
    assert!(rt;
        matches!(
            take_octets(b"\x02\x00\x00\x00\xff", 1, 2),
            Err(ReadError::Short)
        )
    );
    assert!(rt;
        matches!(
            take_octets(b"\x03\x00\x00\x00", 1, 2),
            Err(ReadError::Wrong)
        )
    );
    assert!(rt;
        matches!(
            take_text(b"\x02\x00\x00\x00\xc3\xa4\x05", 0, 9),
            Ok(("ä", [5]))
        )
    );
    assert!(rt;
        matches!(
            take_text(b"\x02\x00\x00\x00\xff\xfe", 0, 9),
            Err(ReadError::Wrong)
        )
    );
    assert!(rt; matches!(take_constant(b"VXST1", b"VXST"), Ok([b'1'])));
    assert!(rt; matches!(take_constant(b"VXSU", b"VXST"), Err(ReadError::Wrong)));
    assert!(rt; matches!(take_constant(b"VXS", b"VXST"), Err(ReadError::Short)));
}

#[test]
fn written(rt: HostRuntime) -> Result<(), Fail> {
    let mut out = Vec::new(rt.alloc());
    push_u8(&mut out, 1)?;
    push_u32(&mut out, 2)?;
    push_u64(&mut out, 3)?;
    push_octets(&mut out, b"\xff")?;
    push_text(&mut out, "ab")?;
    let bytes = b"\x01\x02\0\0\0\x03\0\0\0\0\0\0\0\x01\0\0\0\xff\x02\0\0\0ab";
    assert_eq!(rt; out.as_slice(), bytes.as_slice());
    Ok(())
}

#[test]
fn sizes(rt: HostRuntime) -> Result<(), Fail> {
    let bytes = b"SIZE\x02\0\0\0\x05\0\0\0\0\0\0\0\x06\0\0\0\0\0\0\0\x07";
    let read = take_sizes(rt.alloc(), bytes)?;
    assert!(rt; read.is_ok());
    if let Ok((sizes, rest)) = read {
        assert_eq!(rt; sizes.as_slice(), [5, 6].as_slice());
        assert_eq!(rt; rest, b"\x07".as_slice());
    }
    assert!(rt;
        matches!(
            take_sizes(rt.alloc(), b"SIZE\x02\0\0\0\x05")?,
            Err(ReadError::Short)
        )
    );
    assert!(rt;
        matches!(
            take_sizes(rt.alloc(), b"SIZE\xff\xff\0\0")?,
            Err(ReadError::Wrong)
        )
    );
    Ok(())
}
