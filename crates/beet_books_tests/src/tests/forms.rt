use beet_forms::{
    FaultPlace, Name, NumberFault, Row, RowReader, fault_line, five_fields, four_fields, is_header,
    is_name, number, push_decimal, rows, three_fields, two_fields,
};
use std::alloc::Global;
use std::process::Abort;

/// Digits, the largest number that is taken, and the answer.
const NUMBERS: [(&str, u64, Result<u64, NumberFault>); 12] = [
    ("", 9, Err(NumberFault::Empty)),
    ("+1", 9, Err(NumberFault::NotDigit)),
    ("01", 9, Err(NumberFault::LeadingZero)),
    ("0a", 9, Err(NumberFault::NotDigit)),
    ("0", 0, Ok(0)),
    (
        "281474976710655",
        281_474_976_710_655,
        Ok(281_474_976_710_655),
    ),
    (
        "281474976710656",
        281_474_976_710_655,
        Err(NumberFault::TooLarge),
    ),
    (
        "9999999999999999999",
        9_999_999_999_999_999_999,
        Ok(9_999_999_999_999_999_999),
    ),
    (
        "9999999999999999999",
        9_999_999_999_999_999_998,
        Err(NumberFault::TooLarge),
    ),
    ("18446744073709551615", u64::MAX, Ok(u64::MAX)),
    ("18446744073709551616", u64::MAX, Err(NumberFault::TooLarge)),
    ("99999999999999999999", u64::MAX, Err(NumberFault::TooLarge)),
];

/// Reads the digits of each case.
fn expect_numbers(rt: &impl Abort, cases: &[(&str, u64, Result<u64, NumberFault>)]) {
    for (digits, max, wanted) in cases {
        assert!(rt; number(digits.as_bytes(), *max) == *wanted, "of {digits}");
    }
}

/// Whether the digits of zero and of the largest number are appended.
fn are_appended(rt: &impl Abort, alloc: Global) -> bool {
    let mut digits = Vec::new(alloc);
    push_decimal(&mut digits, 0).expect(rt, "memory");
    push_decimal(&mut digits, u64::MAX).expect(rt, "memory");
    digits.as_slice() == b"018446744073709551615".as_slice()
}

#[test]
fn numbers(rt: HostRuntime) {
    expect_numbers(&rt, &NUMBERS);
    assert!(rt; are_appended(&rt, rt.alloc()));
}

/// Bytes, and whether they are a name.
const NAMES: [(&[u8], bool); 8] = [
    (b"", false),
    (b"anna.bid", true),
    (b"s\xc3\xb8ren", true),
    (b"\xc3", false),
    (b"a\x1fb", false),
    (b"a\x7f", false),
    (&[b'n'; 200], true),
    (&[b'n'; 201], false),
];

/// Makes a name of these bytes, which then has them, or none.
fn expect_name(rt: &impl Abort, alloc: Global, bytes: &[u8], wanted: bool) {
    match Name::of(alloc, bytes).expect(rt, "memory") {
        Some(name) => assert!(rt; wanted && name.as_str().as_bytes() == bytes),
        None => assert!(rt; !wanted),
    }
}

/// Makes a name of the bytes of each case.
fn expect_names(rt: &impl Abort, alloc: Global, cases: &[(&[u8], bool)]) {
    for (bytes, wanted) in cases {
        assert!(rt; is_name(bytes) == *wanted);
        expect_name(rt, alloc, bytes, *wanted);
    }
}

#[test]
fn names(rt: HostRuntime) {
    expect_names(&rt, rt.alloc(), &NAMES);
}

/// Compares the line of a bad file.
fn expect_line(
    rt: &impl Abort,
    alloc: Global,
    file: &str,
    place: FaultPlace,
    reason: u32,
    wanted: &str,
) {
    let line = fault_line(alloc, file, place, reason).expect(rt, "memory");
    assert!(rt; line.as_slice() == wanted.as_bytes(), "not {wanted}");
}

#[test]
fn fault_lines(rt: HostRuntime) {
    let in_row = "bad file: x.bid row 2 reason 7\n";
    expect_line(&rt, rt.alloc(), "x.bid", FaultPlace::Row(2), 7, in_row);
    let at = "bad file: o.2 at 34992 reason 2\n";
    expect_line(&rt, rt.alloc(), "o.2", FaultPlace::At(34_992), 2, at);
}

/// Five rows, of two, three, two, four and five fields.
const FIVE_ROWS: &[u8] =
    b"\xef\xbb\xbfbeet-bid,1\r\n\n\"100\",\"a \"\"b\"\", c\",0\r\n x ,\n1,2,3,4\n1,2,3,4,5";

/// Their fields.
const FIELDS: [&[&[u8]]; 5] = [
    &[b"beet-bid", b"1"],
    &[b"100", b"a \"b\", c", b"0"],
    &[b" x ", b""],
    &[b"1", b"2", b"3", b"4"],
    &[b"1", b"2", b"3", b"4", b"5"],
];

/// Whether a row has these fields.
fn has(row: &Row, fields: &[&[u8]]) -> bool {
    match fields {
        [a, b] => two_fields(row) == Some((*a, *b)),
        [a, b, c] => three_fields(row) == Some((*a, *b, *c)),
        [a, b, c, d] => four_fields(row) == Some((*a, *b, *c, *d)),
        [a, b, c, d, e] => five_fields(row) == Some((*a, *b, *c, *d, *e)),
        _ => false,
    }
}

/// Compares the fields of all of them.
fn expect_fields(rt: &impl Abort, rows: &[Row]) {
    for (row, fields) in rows.iter().zip(&FIELDS) {
        assert!(rt; has(row, fields));
    }
}

/// Compares all of them.
fn expect_rows(rt: &impl Abort, rows: &[Row]) {
    assert!(rt; rows.len() == 5);
    assert!(rt; is_header(&rows[0], b"beet-bid", b"1"));
    assert!(rt; !is_header(&rows[0], b"beet-bid", b"2"));
    assert!(rt; two_fields(&rows[1]).is_none());
    expect_fields(rt, rows);
    assert!(rt; rows[4].field(5).is_none());
    assert!(rt; !rows[4].is_empty());
}

#[test]
fn rows_of_a_file(rt: HostRuntime) {
    expect_rows(&rt, &rows(rt.alloc(), FIVE_ROWS).expect(&rt, "memory"));
}

/// The first three of them.
const THREE_ROWS: &[u8] = b"beet-bid,1\r\n\n\"100\",\"a \"\"b\"\", c\",0\r\n x ,";

/// Whether the next row is the header of a bid.
fn begins(rt: &impl Abort, rows: &mut RowReader, row: &mut Row) -> bool {
    rows.begins_with(row, b"beet-bid", b"1")
        .expect(rt, "memory")
}

/// Whether there is a next row, which is read.
fn is_next(rt: &impl Abort, rows: &mut RowReader, row: &mut Row) -> bool {
    rows.next(row).expect(rt, "memory")
}

/// Reads the three rows into one, and compares it after each.
fn expect_reading(rt: &impl Abort, rows: &mut RowReader, row: &mut Row) {
    assert!(rt; begins(rt, rows, row));
    assert!(rt; is_next(rt, rows, row) && has(row, FIELDS[1]));
    assert!(rt; is_next(rt, rows, row) && has(row, FIELDS[2]));
    assert!(rt; !is_next(rt, rows, row));
}

/// Whether a text of an empty row begins with that header.
fn empty_begins(rt: &impl Abort, alloc: Global) -> bool {
    let mut rows = RowReader::new(alloc, b"\n");
    begins(rt, &mut rows, &mut Row::new(alloc))
}

#[test]
fn rows_one_at_a_time(rt: HostRuntime) {
    assert!(rt; !empty_begins(&rt, rt.alloc()));
    let mut rows = RowReader::new(rt.alloc(), THREE_ROWS);
    expect_reading(&rt, &mut rows, &mut Row::new(rt.alloc()));
}
