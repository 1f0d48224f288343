//! What the tests of several crates share.

use beet_bids::{Grid, read_auction, read_bid};
use beet_book::{read_book, read_servers};
use beet_farmer::read_list;
use beet_field::{Fe, Trio};
use beet_forms::ReadFault;
use beet_gates::Gates;
use beet_sale_file::read_sale;
use beet_words::{Tape, read_tape};
use std::alloc::Global;
use std::process::Abort;

/// The row and the reason that a text is refused with, or none if it is read.
pub type Refusal = Option<(u32, u32)>;

/// How texts are refused, and the texts.
pub type Refused = (Refusal, &'static [&'static str]);

/// Compares how a text was read with what is wanted of it.
pub fn expect_refusal(rt: &impl Abort, found: Option<ReadFault>, wanted: Refusal, text: &str) {
    let wanted = wanted.map(|(row, reason)| ReadFault::at_row(row, reason));
    assert!(rt; found == wanted, "of {text}");
}

/// What a text is read as: a bid at four prices, or a file of another kind.
#[derive(Clone, Copy)]
pub enum Kind {
    Auction,
    Bid,
    Servers,
    Book,
    List,
    Tape,
    Sale,
}

/// Why a text is refused.
pub fn fault_of(rt: &impl Abort, alloc: Global, kind: Kind, text: &str) -> Option<ReadFault> {
    assert!(rt; text.len() <= 65_536);
    let bytes = text.as_bytes();
    match kind {
        Kind::Auction => read_auction(alloc, bytes).err(),
        Kind::Bid => read_bid(alloc, &grid_of(rt, 4), bytes).err(),
        Kind::Servers => read_servers(alloc, bytes).err(),
        Kind::Book => read_book(alloc, bytes).err(),
        Kind::List => read_list(alloc, bytes).err(),
        Kind::Tape => read_tape(alloc, bytes, 9).err(),
        Kind::Sale => read_sale(alloc, bytes).err(),
    }
}

/// Reads the texts of each case.
pub fn expect_refusals(rt: &impl Abort, alloc: Global, kind: Kind, cases: &[Refused]) {
    for (wanted, texts) in cases {
        for text in texts.iter() {
            expect_refusal(rt, fault_of(rt, alloc, kind, text), *wanted, text);
        }
    }
}

/// Compares how bytes were read with the offset and the reason that they are to be refused with.
pub fn expect_offset(rt: &impl Abort, found: Option<ReadFault>, offset: u64, reason: u32) {
    assert!(rt;
        found == Some(ReadFault::at_offset(offset, reason)),
        "at {offset}"
    );
}

/// The grid of the prices 100, 105 and so on.
pub fn grid_of(rt: &impl Abort, prices: u32) -> Grid {
    Grid::new(100, 5, prices, Gates::Chain).expect(rt, "a grid")
}

pub fn are(numbers: &[Fe], wanted: &[u64]) -> bool {
    numbers
        .iter()
        .map(|number| number.value())
        .eq(wanted.iter().copied())
}

/// The points of a buyer at each server, who buys 45, 45, 30 and 10 and draws the words from 1 to 8.
pub const POINTS: Trio<&[u64]> = Trio {
    one: &[46, 47, 33, 14, 5, 6, 7, 8],
    two: &[47, 49, 36, 18, 10, 12, 14, 16],
    three: &[48, 51, 39, 22, 15, 18, 21, 24],
};

/// The words from 1 to 8, as a tape file.
const EIGHT: &[u8] = b"0000000000000001
0000000000000002
0000000000000003
0000000000000004
0000000000000005
0000000000000006
0000000000000007
0000000000000008
";

/// The tape of the words from 1 to 8.
pub fn tape_of_eight(rt: &impl Abort, alloc: Global) -> Tape {
    let words = read_tape(alloc, EIGHT, 8).expect(rt, "words");
    assert!(rt; words.len() == 8);
    Tape::of_words(words)
}

/// A text of this header and of so many rows, each its number and then the same.
pub fn numbered_rows(
    rt: &impl Abort,
    alloc: Global,
    header: &str,
    count: u32,
    then: &str,
) -> String {
    let mut text = String::from_str(alloc, header).expect(rt, "memory");
    for i in 0..count {
        let row = format!(in alloc; "{i}{then}\n").expect(rt, "memory");
        text.push_str(row.as_str()).expect(rt, "memory");
    }
    text
}
