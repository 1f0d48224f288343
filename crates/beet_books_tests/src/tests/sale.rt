use super::samples::{Kind, Refused, expect_refusals};
use beet_book::BidderSource;
use beet_field::Point;
use beet_forms::ReadFault;
use beet_gates::Gates;
use beet_sale_file::{Sale, SaleBid, SaleRow, read_sale};
use std::alloc::Global;
use std::process::Abort;

/// A sale of two bidders.
const ANN_AND_BEN: &str = "beet-sale,1\ngates,tree\nann,0,281474976710655,tape,ann.tape\n\
    ben,3,0,seed,0a0A0a0a0a0a0a0a0a0a0a0a0a0a0a0a0a0a0a0a0a0a0a0a0a0a0a0a0a0a0a0a\n";

/// Sale files, and how they are refused.
const SALES: [Refused; 9] = [
    (Some((1, 1)), &["", "beet-sale,2\n", "beet-sale,1,chain\n"]),
    (
        Some((2, 3)),
        &[
            "beet-sale,1\n",
            "beet-sale,1\ngates\n",
            "beet-sale,1\ngates,trees\n",
            "beet-sale,1\ngate,chain\n",
            "beet-sale,1\ngates,chain,1\n",
        ],
    ),
    (
        Some((3, 2)),
        &[
            "beet-sale,1\ngates,chain\n",
            "beet-sale,1\ngates,chain\na,0,7,tape\n",
            "beet-sale,1\ngates,chain\n,0,7,tape,t\n",
            "beet-sale,1\ngates,chain\na,4,7,tape,t\n",
            "beet-sale,1\ngates,chain\na,0,b.bid,tape,t\n",
            "beet-sale,1\ngates,chain\na,0,,tape,t\n",
            "beet-sale,1\ngates,chain\na,0,07,tape,t\n",
            "beet-sale,1\ngates,chain\na,0,281474976710656,cup,t\n",
        ],
    ),
    (
        Some((3, 6)),
        &[
            "beet-sale,1\ngates,chain\na,0,281474976710655,cup,t\n",
            "beet-sale,1\ngates,chain\na,0,7,tape,\n",
            "beet-sale,1\ngates,chain\na,0,7,seed,0a\n",
        ],
    ),
    (Some((4, 2)), &["beet-sale,1\ngates,chain\na,0,7,tape,t\n"]),
    (
        Some((4, 4)),
        &["beet-sale,1\ngates,chain\na,0,7,tape,t\na,1,8,tape,u\n"],
    ),
    (
        Some((4, 6)),
        &["beet-sale,1\ngates,chain\na,0,7,tape,t\na,0,7,cup,t\n"],
    ),
    (
        Some((5, 2)),
        &["beet-sale,1\ngates,chain\na,0,7,tape,t\nb,1,8,tape,u\nb\n"],
    ),
    (
        None,
        &[
            "beet-sale,1\ngates,chain\na,0,7,tape,t\nb,1,7,tape,t\n",
            ANN_AND_BEN,
        ],
    ),
];

#[test]
fn sales(rt: HostRuntime) {
    expect_refusals(&rt, rt.alloc(), Kind::Sale, &SALES);
}

/// Reads a sale file.
fn sale_of(rt: &impl Abort, alloc: Global, text: &str) -> Result<Sale, ReadFault> {
    assert!(rt; text.len() <= 65_536);
    read_sale(alloc, text.as_bytes())
}

/// The bids of ann and ben.
const BIDS: [SaleBid; 2] = [
    SaleBid {
        known: None,
        bid: 281_474_976_710_655,
    },
    SaleBid {
        known: Some(Point::Three),
        bid: 0,
    },
];

/// Compares the names and the sources of ann and ben.
fn expect_two(rt: &impl Abort, rows: &[SaleRow]) {
    assert!(rt; rows.len() == 2);
    assert!(rt; rows[0].name.as_str() == "ann" && rows[1].name.as_str() == "ben");
    assert!(rt; rows[0].bid == BIDS[0] && rows[1].bid == BIDS[1]);
    assert!(rt; matches!(&rows[0].source, BidderSource::Tape(_)));
    assert!(rt; matches!(&rows[1].source, BidderSource::Seed(_)));
}

#[test]
fn a_sale_is_seen_as_its_file(rt: HostRuntime) {
    let sale = sale_of(&rt, rt.alloc(), ANN_AND_BEN).expect(&rt, "a sale");
    assert!(&rt; sale.gates() == Gates::Tree);
    assert!(&rt; sale.bids() == BIDS.as_slice());
    expect_two(&rt, sale.rows());
}
