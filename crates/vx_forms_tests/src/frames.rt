use std::test::Fail;
use vx_forms::{FrameParts, cut_frame, push_frame_end};

#[test]
fn frames(rt: HostRuntime) -> Result<(), Fail> {
    let mut out = Vec::new(rt.alloc());
    out.extend_from_slice(b"VXCFbody")?;
    push_frame_end(&mut out, b"foot", b"VXCF")?;
    assert_eq!(rt; out.as_slice(), b"VXCFbodyfoot\x04\0\0\0VXCF".as_slice());
    assert!(rt;
        matches!(
            cut_frame(&out, b"VXCF"),
            Some(FrameParts {
                footer: b"foot",
                offset: 8
            })
        )
    );
    assert!(rt; cut_frame(&out, b"VXZN").is_none());
    assert!(rt; cut_frame(b"VXCF\x01\0\0\0VXCF", b"VXCF").is_none());
    Ok(())
}
