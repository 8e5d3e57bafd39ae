use std::alloc::Global;
use std::test::Fail;
use vx_proto::{
    Element, ProtoError, flag, flag_at, i32_at, int32_number, int32_of, message_at, one, text_at,
    u8_at, unzigzag, zigzag,
};

#[test]
fn zigzag_numbers(rt: HostRuntime) {
    for (value, number) in [
        (0, 0),
        (-1, 1),
        (1, 2),
        (42, 84),
        (-128, 255),
        (i64::MAX, u64::MAX - 1),
        (i64::MIN, u64::MAX),
    ] {
        assert_eq!(rt; zigzag(value), number);
        assert_eq!(rt; unzigzag(number), value);
    }
}

#[test]
fn int32_numbers(rt: HostRuntime) {
    for (value, number) in [
        (0, 0),
        (1, 1),
        (-1, u64::MAX),
        (i32::MAX, 0x7fff_ffff),
        (i32::MIN, 0xffff_ffff_8000_0000),
    ] {
        assert_eq!(rt; int32_number(value), number);
        assert_eq!(rt; int32_of(number), value);
    }
}

#[test]
fn members_by_slot(rt: HostRuntime) -> Result<(), Fail> {
    let alloc = rt.alloc();
    let mut slots = Vec::new(alloc);
    slots.push(one(alloc, 1, flag(true))?)?;
    slots.push(one(alloc, 2, Element::Number(int32_number(-3)))?)?;
    slots.push(one(alloc, 3, Element::Octets(Vec::from_slice(alloc, b"hi")?))?)?;
    slots.push(one(alloc, 4, Element::Message(Vec::new(alloc)))?)?;
    assert!(rt; flag_at(&slots, 0) && u8_at(&slots, 0) == 1);
    assert_eq!(rt; i32_at(&slots, 1), -3);
    assert!(rt; matches!(text_at(&slots, 2), Some("hi")));
    assert!(rt; matches!(message_at(&slots, 3), Some([])));
    assert!(rt; text_at(&slots, 4).is_none());
    Ok(())
}

// Whether a refusal has this text.
fn is_text(alloc: Global, error: ProtoError, text: &str) -> bool {
    match format!(in alloc; "{error}") {
        Ok(printed) => printed.as_str() == text,
        Err(_) => false,
    }
}

const TEXTS: [(ProtoError, &str); 4] = [
    (ProtoError::OutOfMemory, "out of memory"),
    (
        ProtoError::BadMessage,
        "the bytes are no message of the schema",
    ),
    (ProtoError::TooDeep, "over 100 messages nest"),
    (
        ProtoError::OutOfRange,
        "a number is out of its field's range",
    ),
];

#[test]
fn texts_of_refusals(rt: HostRuntime) {
    for (error, text) in &TEXTS {
        assert!(rt; is_text(rt.alloc(), *error, text), "{text}");
    }
}
