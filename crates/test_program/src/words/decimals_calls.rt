//! Decimal numbers, and bytes that are none.
use text_script::decimals::natural_of;

// Bytes, and the number that they are.
const ROWS: [(&[u8], Option<u64>); 9] = [
    (b"0", Some(0)),
    (b"512", Some(512)),
    (b"18446744073709551615", Some(u64::MAX)),
    (b"18446744073709551616", Some(u64::MAX)),
    (b"", None),
    (b"00", None),
    (b"07", None),
    (b"+7", None),
    (b"7 ", None),
];

#[test]
fn numbers_without_a_sign(rt: HostRuntime) {
    for (bytes, number) in &ROWS {
        assert_eq!(rt; natural_of(bytes), *number, "at {bytes:?}");
    }
}
