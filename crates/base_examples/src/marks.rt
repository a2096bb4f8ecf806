use conda_base::put_marked;

#[test]
fn marked_bytes_are_taken(rt: HostRuntime) {
    let mut bytes = [1, 2, 3, 4, 5, 6];
    put_marked(&mut bytes, 0b10_1101, &[7, 8, 9, 10, 11, 12]);
    assert_eq!(rt; bytes, [7, 2, 9, 10, 5, 12]);
}

#[test]
fn no_mark_takes_nothing_and_all_marks_everything(rt: HostRuntime) {
    let mut bytes = [1, 2];
    put_marked(&mut bytes, 0, &[3, 4]);
    assert_eq!(rt; bytes, [1, 2]);
    put_marked(&mut bytes, u128::MAX, &[3, 4]);
    assert_eq!(rt; bytes, [3, 4]);
}
