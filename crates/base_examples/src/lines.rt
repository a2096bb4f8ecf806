use conda_base::{Line, line_of, offset_of};

#[test]
fn lines_and_offsets(rt: HostRuntime) {
    assert_eq!(rt; line_of(0x1_0047, 64), Line(0x401));
    assert_eq!(rt; offset_of(0x1_0047, 64), 7);
    assert_eq!(rt; line_of(0x1_0047, 32), Line(0x802));
    assert_eq!(rt; offset_of(0x1_0047, 32), 7);
    assert_eq!(rt; line_of(u32::MAX, 128), Line(0x1ff_ffff));
    assert_eq!(rt; offset_of(u32::MAX, 128), 127);
}
