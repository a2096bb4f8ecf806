use write_masks::Masked;

#[test]
fn a_stored_byte_hides_a_filled_one(rt: HostRuntime) {
    let mut line = Masked::empty();
    line.put(126, 2, 0x1_abcd);
    assert_eq!(rt; line.mask, 3u128 << 126);
    assert!(rt; !line.filled);
    line.fill(&[7; 128]);
    assert!(rt; line.filled);
    assert_eq!(rt; line.get(124, 4), 0xabcd_0707);
    assert_eq!(rt; line.get(127, 1), 0xab);
}

#[test]
fn a_word_with_one_stored_byte_is_not_covered(rt: HostRuntime) {
    let mut line = Masked::empty();
    line.put(0, 1, 0);
    assert!(rt; line.covers(0, 1));
    assert!(rt; !line.covers(0, 4));
    line.put(0, 4, 0);
    assert!(rt; line.covers(0, 4));
}
