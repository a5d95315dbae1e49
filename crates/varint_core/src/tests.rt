use super::*;
use std::test::*;

// The values are those of fileformat2.html, 1.6, worked out by hand.
#[test]
fn varints_of_one_two_and_nine_bytes_are_read(rt: HostRuntime) {
    assert_eq!(rt; read_varint(&[0x7f], 0), Some((127, 1)));
    assert_eq!(rt; read_varint(&[0x81, 0x00], 0), Some((128, 2)));
    assert_eq!(rt; read_varint(&[0x80, 0x00], 0), Some((0, 2)));
    assert_eq!(rt; read_varint(&[0xff; 9], 0), Some((u64::MAX, 9)));
    assert_eq!(rt; read_varint(&[0x00, 0x81, 0x00, 0x05], 1), Some((128, 2)));
}

#[test]
fn bytes_that_end_inside_a_varint_give_none(rt: HostRuntime) {
    assert_eq!(rt; read_varint(&[0xff; 8], 0), None);
    assert_eq!(rt; read_varint(&[], 0), None);
    assert_eq!(rt; read_varint(&[0x05], 1), None);
}

#[test]
fn the_shortest_spellings_are_written(rt: HostRuntime) {
    assert_eq!(rt; write_varint(0).as_slice(), [0x00].as_slice());
    assert_eq!(rt; write_varint(127).as_slice(), [0x7f].as_slice());
    assert_eq!(rt; write_varint(128).as_slice(), [0x81, 0x00].as_slice());
    assert_eq!(rt;
        write_varint(16384).as_slice(),
        [0x81, 0x80, 0x00].as_slice()
    );
    let wanted = [0x80, 0xc0, 0x80, 0x80, 0x80, 0x80, 0x80, 0x80, 0x00];
    assert_eq!(rt; write_varint(1 << 56).as_slice(), wanted.as_slice());
    assert_eq!(rt; write_varint(u64::MAX).as_slice(), [0xff; 9].as_slice());
    for (number, len) in [
        (0, 1),
        (16383, 2),
        (16384, 3),
        ((1 << 56) - 1, 8),
        (1 << 56, 9),
    ] {
        assert_eq!(rt; varint_len(number), len);
    }
}
