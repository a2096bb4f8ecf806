use arrayvec::ArrayVec;
use conda_base::{
    are_digits, digit_of, is_decimal, is_numeral, push_bytes, push_decimal, word_digits,
};

#[tactic(auto, using(conda_base::proofs::DecimalLemmas::length_decimal_wide))]
fn text(n: u64) -> ArrayVec<u8, 32> {
    let mut out = ArrayVec::new();
    push_bytes(&mut out, b"n ");
    push_decimal(&mut out, n);
    out
}

#[test]
fn numbers(rt: HostRuntime) {
    assert_eq!(rt; text(0).as_slice(), b"n 0".as_slice());
    assert_eq!(rt;
        text(u64::MAX).as_slice(),
        b"n 18446744073709551615".as_slice()
    );
}

#[test]
fn digits(rt: HostRuntime) {
    assert_eq!(rt; word_digits(0x0190_abef), *b"0190abef");
    assert_eq!(rt; digit_of(15), b'f');
    assert!(rt; is_decimal(b'9'));
    assert!(rt; !is_decimal(b':'));
    assert!(rt; are_digits(b"0123456789"));
    assert!(rt; !are_digits(b"0x1"));
    assert!(rt; is_numeral(b"0"));
    assert!(rt; !is_numeral(b"00"));
    assert!(rt; !is_numeral(b""));
}
