//! Names, words and numbers, byte by byte and at their limits, and cuts.
use crate::asserts::{assert_at, assert_case};
use burr_text::{Name, cut_at, integer, is_name, is_number, is_word};
use std::process::Abort;

const LETTERS: &str = "ABCDEFGHIJKLMNOPQRSTUVWXYZabcdefghijklmnopqrstuvwxyz";

const NAME_BYTES: &str = "ABCDEFGHIJKLMNOPQRSTUVWXYZabcdefghijklmnopqrstuvwxyz0123456789_-";

const DIGITS: &str = "0123456789";

/// Whether a text has a byte.
fn has(text: &str, byte: u8) -> bool {
    text.as_bytes().contains(&byte)
}

/// Whether names take a byte as they should, first and after a letter.
fn is_judged_in_names(byte: u8) -> bool {
    is_name(&[byte]) == has(LETTERS, byte)
        && is_name(&[byte, b'o']) == has(LETTERS, byte)
        && is_name(&[b'd', byte]) == has(NAME_BYTES, byte)
        && is_name(&[b'd', byte, b'o']) == has(NAME_BYTES, byte)
}

/// Whether words take a byte as they should.
fn is_judged_in_words(byte: u8) -> bool {
    let is_taken = byte.is_ascii_graphic();
    is_word(&[byte]) == is_taken
        && is_word(&[byte, b'o']) == is_taken
        && is_word(&[b'd', byte]) == is_taken
}

/// Whether numbers take a byte as they should, alone, after a digit and after a minus.
fn is_judged_in_numbers(byte: u8) -> bool {
    is_number(&[byte]) == has(DIGITS, byte)
        && is_number(&[b'1', byte]) == has(DIGITS, byte)
        && is_number(&[b'-', byte]) == has(&DIGITS[1..], byte)
        && is_number(&[b'-', b'1', byte]) == has(DIGITS, byte)
}

#[test]
fn judges_each_byte(rt: HostRuntime) {
    for byte in 0..=u8::MAX {
        assert_at(&rt, usize::from(byte), is_judged_in_names(byte));
        assert_at(&rt, usize::from(byte), is_judged_in_words(byte));
        assert_at(&rt, usize::from(byte), is_judged_in_numbers(byte));
    }
}

#[test]
fn takes_names_of_1_to_32_bytes(rt: HostRuntime) {
    let bytes = [b'n'; 99];
    for length in 0..=bytes.len() {
        let is_wanted = 1 <= length && length <= 32;
        assert_at(&rt, length, is_name(&bytes[..length]) == is_wanted);
    }
}

/// Whether a name has a text.
fn is_named(name: &Name, text: &str) -> bool {
    name.as_str() == text && name.as_bytes() == text.as_bytes()
}

#[test]
fn keeps_names(rt: HostRuntime) {
    let name = Name::new(rt.alloc(), b"Burr_9-x").expect(&rt, "memory");
    assert!(rt; is_named(&name, "Burr_9-x"));
}

/// Numbers of any length, a line each.
const NUMBERS: &str = "\
0
1
-1
9
10
-10
64
-64
65
640
2147483648
-9223372036854775809
340282366920938463463374607431768211456
1000000000000000000000000000000000000000000000000000000000000000000000000000000000000000000000000001
";

/// What is written in another way, and what is no number; the first line is empty.
const OTHERS: &str = "
-
+
-0
+0
+1
+64
00
01
-01
007
--1
1-
1.
1.0
.5
1e1
0x1
1_0
a
#
1,
065
-065
-00
099999999999999999999
+99999999999999999999
99999999999999999999.
9999999999x9999999999
\u{661}
";

/// Asserts that each line is a number, or that none is.
fn assert_numbers(rt: &impl Abort, lines: &str, are_numbers: bool) {
    for line in lines.lines() {
        assert_case(rt, line, is_number(line.as_bytes()) == are_numbers);
    }
}

#[test]
fn takes_numbers_as_they_are_written(rt: HostRuntime) {
    assert_numbers(&rt, NUMBERS, true);
    assert_numbers(&rt, OTHERS, false);
}

/// Numbers of 32 bits, at their limits.
const INTEGERS: [(&str, Option<i32>); 12] = [
    ("0", Some(0)),
    ("-1", Some(-1)),
    ("2147483647", Some(i32::MAX)),
    ("-2147483648", Some(i32::MIN)),
    ("2147483648", None),
    ("-2147483649", None),
    ("99999999999999999999", None),
    ("-0", None),
    ("01", None),
    ("+1", None),
    ("1 ", None),
    ("", None),
];

#[test]
fn reads_numbers_of_32_bits(rt: HostRuntime) {
    for (text, value) in &INTEGERS {
        assert_case(&rt, text, integer(text.as_bytes()) == *value);
    }
}

#[test]
fn cuts_at_the_first(rt: HostRuntime) {
    let parts = cut_at(b"a b c", b' ');
    assert!(rt; parts == Some((b"a".as_slice(), b"b c".as_slice())));
    assert!(rt; cut_at(b"a-b", b' ').is_none());
}
