//! Numbers as digits.
use text_lines::write_digits;

#[test]
fn numbers_are_written(rt: HostRuntime) {
    for (number, text) in [
        (0, "0"),
        (9, "9"),
        (10, "10"),
        (1_000, "1000"),
        (67_108_864, "67108864"),
        (u64::MAX, "18446744073709551615"),
    ] {
        let mut digits = [b'x'; 20];
        let at = write_digits(number, &mut digits);
        assert!(rt; &digits[at..] == text.as_bytes(), "number {number}");
    }
}
