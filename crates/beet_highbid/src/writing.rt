//! The writer of a sale's transcripts.

ghost use Rattle.std.specs.Prelude.{◌≡◌, ◌++◌, IfOk, OnOk, codes, length, map};
ghost use Rattle.std.specs.List.{flat_map};
ghost use Rattle.beet_mapped.specs.Dealers.{dealers_of};
ghost use Rattle.beet_sale_file.specs.Sales.{bids_of};
ghost use Rattle.beet_sale_map.specs.InputLines.{dealer_line, dealer_lines};
ghost use Rattle.beet_sale_map.specs.Worlds.{party_of};
ghost use Rattle.beet_view.specs.BookViews.{names};
ghost use Rattle.beet_highbid.specs.SaleViews.{kept_if, own_bytes, sale_bytes, seen_bid, seen_bytes};

use beet_field::Point;
use beet_sale_file::Sale;
use beet_sale_map::{SaleBid, input_lines, row_at};
use beet_shamir::Line;
use beet_view::{RunView, mark_of, number_of_gates, push_run};
use beet_words::{WordList, push_list, push_number};
use std::alloc::{AllocError, Global};

/// Whether a server knows a bid.
fn knows(me: Point, bid: &SaleBid) -> bool
    ensures { result ≡ names bid.now.known me }
{
    bid.known == Some(me)
}

/// Appends a bid and the words by which it is dealt, if the server knows them.
fn push_own(
    file: &mut Vec<u8>,
    me: Point,
    bid: &SaleBid,
    words: &WordList,
) -> Result<(), AllocError>
    ensures { OnOk result (file.new.items ≡ file.old.items
        ++ own_bytes (kept_if (names bid.now.known me) bid.now.bid words.now)) }
{
    let known = knows(me, bid);
    if known {
        push_number(file, bid.bid)?;
        push_list(file, words)?;
    }
    Ok(())
}

/// Appends a bid as a server sees it, whose points lie on this line and which is dealt by these words.
fn push_bid(
    file: &mut Vec<u8>,
    me: Point,
    bid: &SaleBid,
    line: Line,
    words: &WordList,
) -> Result<(), AllocError>
    requires { line ≡ dealer_line (record { party = party_of bid.now; words = words.now }) }
    ensures { OnOk result (file.new.items ≡ file.old.items
        ++ seen_bytes (seen_bid me (record { party = party_of bid.now; words = words.now }))) }
{
    push_number(file, mark_of(bid.known))?;
    push_number(file, line.at(me).value())?;
    push_own(file, me, bid, words)?;
    Ok(())
}

/// Appends the bids as a server sees them.
fn push_bids(
    file: &mut Vec<u8>,
    me: Point,
    bids: &[SaleBid],
    lines: &[Line],
    words: &[WordList],
) -> Result<(), AllocError>
    requires count { length words.now ≡ length bids.now }
    requires lines { lines.now ≡ dealer_lines bids.now words.now }
    ensures { OnOk result (file.new.items ≡ file.old.items
        ++ flat_map seen_bytes (map (seen_bid me) (dealers_of (map party_of bids.now) words.now))) }
{
    for i in 0..bids.len() {
        let bid = row_at(bids, i);
        push_bid(file, me, &bid, lines[i], &words[i])?;
    }
    Ok(())
}

/// Appends what a server sees of a sale, whose bidders deal by these words.
fn push_sale(
    file: &mut Vec<u8>,
    me: Point,
    sale: &Sale,
    lines: &[Line],
    words: &[WordList],
    run: &RunView,
) -> Result<(), AllocError>
    requires count { length words.now ≡ length sale.now.rows }
    requires lines { lines.now ≡ dealer_lines (bids_of sale.now.rows) words.now }
    requires file { file.old.items ≡ codes "BEETHB01" }
    ensures { OnOk result (file.new.items ≡ sale_bytes (record {
      server = me;
      gates = sale.now.gates;
      bids = map (seen_bid me) (dealers_of (map party_of (bids_of sale.now.rows)) words.now);
      run = run.now;
    })) }
{
    push_number(file, me.number())?;
    push_number(file, number_of_gates(sale.gates()))?;
    push_number(file, sale.bids().len() as u64)?;
    push_bids(file, me, sale.bids(), lines, words)?;
    push_run(file, run)?;
    Ok(())
}

/// The transcript of a server of a sale, whose bidders deal by these words, and what the server has seen of the run.
/// Want of memory is the only error.
pub fn write_sale_view(
    alloc: Global,
    me: Point,
    sale: &Sale,
    words: &[WordList],
    run: &RunView,
) -> Result<Vec<u8>, AllocError>
    requires { length words.now ≡ length sale.now.rows }
    ensures { IfOk result (λ file. file.items ≡ sale_bytes (record {
      server = me;
      gates = sale.now.gates;
      bids = map (seen_bid me) (dealers_of (map party_of (bids_of sale.now.rows)) words.now);
      run = run.now;
    })) }
{
    let lines = input_lines(alloc, sale.bids(), words)?;
    let mut file = Vec::new(alloc);
    file.extend_from_slice(b"BEETHB01")?;
    push_sale(&mut file, me, sale, lines.as_slice(), words, run)?;
    Ok(file)
}
