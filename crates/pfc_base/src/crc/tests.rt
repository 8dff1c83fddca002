use super::*;

// The check value that the catalogs of checksums give, and that of 32 zero bytes from the iSCSI standard.
#[test]
fn published_values(rt: HostRuntime) {
    assert_eq!(rt; crc32c(b"123456789"), 0xE306_9283);
    assert_eq!(rt; crc32c(&[0; 32]), 0x8A91_36AA);
    assert_eq!(rt; crc32c(b""), 0);
}

#[test]
fn cut_feeds(rt: HostRuntime) {
    let mut crc = Crc::new();
    crc.feed(b"1234");
    crc.feed(b"");
    crc.feed(b"56789");
    assert_eq!(rt; crc.end(), 0xE306_9283);
}
