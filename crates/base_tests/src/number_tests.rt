//! Number words and the words of a line, as tables.

use suite_base::{NumberRead, content_line, next_word, read_number};

#[test]
fn number_words_are_read(rt: HostRuntime) {
    let most = 170141183460469231731687303715884105727_i128;
    let cases: [(&[u8], NumberRead); 14] = [
        (b"0", NumberRead::Value(0)),
        (b"-0", NumberRead::Value(0)),
        (b"007", NumberRead::Value(7)),
        (b"-12", NumberRead::Value(-12)),
        (
            b"170141183460469231731687303715884105727",
            NumberRead::Value(most),
        ),
        (
            b"-170141183460469231731687303715884105727",
            NumberRead::Value(-most),
        ),
        (
            b"170141183460469231731687303715884105728",
            NumberRead::TooLarge,
        ),
        (
            b"-170141183460469231731687303715884105728",
            NumberRead::TooLarge,
        ),
        (
            b"00000000000000000000000000000000000000000000000000000000000000003",
            NumberRead::Value(3),
        ),
        (
            b"99999999999999999999999999999999999999999999999999999999999999999",
            NumberRead::TooLarge,
        ),
        (b"+1", NumberRead::NotNumber),
        (b"", NumberRead::NotNumber),
        (b"-", NumberRead::NotNumber),
        (b"1a", NumberRead::NotNumber),
    ];
    for (word, wanted) in &cases {
        assert_eq!(rt; read_number(word), *wanted);
    }
}

#[test]
fn lines_are_cut_into_words(rt: HostRuntime) {
    let cases: [(&[u8], &[u8]); 5] = [
        (b" a b\r", b"a b"),
        (b"a # b", b"a"),
        (b"#", b""),
        (b" \t", b""),
        (b"\x0ba", b"\x0ba"),
    ];
    for (line, wanted) in &cases {
        assert!(rt; content_line(line) == *wanted);
    }
    assert_eq!(rt; next_word(b" ab  c", 0), Some((1, 3)));
    assert_eq!(rt; next_word(b" ab  c", 3), Some((5, 6)));
    assert_eq!(rt; next_word(b" ab  c", 2), Some((2, 3)));
    assert_eq!(rt; next_word(b" ab  ", 3), None);
}
