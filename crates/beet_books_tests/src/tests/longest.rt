use super::samples::{Kind, Refusal, expect_refusal, fault_of, numbered_rows};
use std::alloc::Global;
use std::process::Abort;

/// A kind of file, its header, how many rows it has at most, what each row says behind its number, and how a row more
/// is refused.
type Longest = (Kind, &'static str, u32, &'static str, Refusal);

const LONGEST: [Longest; 3] = [
    (
        Kind::Book,
        "beet-book,1\n",
        2_000,
        ",0,b,tape,t",
        Some((2_002, 5)),
    ),
    (
        Kind::List,
        "beet-list,1\n",
        2_000,
        ",a,b,c",
        Some((2_002, 5)),
    ),
    (
        Kind::Sale,
        "beet-sale,1\ngates,chain\n",
        16,
        ",0,7,tape,t",
        Some((19, 5)),
    ),
];

/// Reads the longest file of a kind, and the same with a row more.
fn expect_longest(rt: &impl Abort, alloc: Global, (kind, header, most, then, wanted): Longest) {
    let mut text = numbered_rows(rt, alloc, header, most, then);
    let found = fault_of(rt, alloc, kind, text.as_str());
    expect_refusal(rt, found, None, "the longest file");
    text.push_str("x\n").expect(rt, "memory");
    let found = fault_of(rt, alloc, kind, text.as_str());
    expect_refusal(rt, found, wanted, "the longer file");
}

#[test]
fn one_row_too_many(rt: HostRuntime) {
    for longest in &LONGEST {
        expect_longest(&rt, rt.alloc(), *longest);
    }
}
