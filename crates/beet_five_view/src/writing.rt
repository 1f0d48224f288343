//! The writer of what two servers see.

ghost use Rattle.std.specs.Prelude.{◌≡◌, ◌<◌, ◌++◌, ◌*◌, ℕ, IfOk, OnOk, [], length, map, true, if◌then◌else◌};
ghost use Rattle.std.specs.List.{flat_map};
ghost use Rattle.beet_words.specs.Fields.{number_bytes};
ghost use Rattle.beet_gates.specs.Each.{each};
ghost use Rattle.beet_gates.specs.declared.Gates.TheVariants.{Chain};
ghost use Rattle.beet_bids.specs.Books.{IsBook};
ghost use Rattle.beet_bids.specs.Curves.{IsOfGrid};
ghost use Rattle.beet_book.specs.Farmers.{farmers_of};
ghost use Rattle.beet_delivery.specs.Networks.{Delivered};
ghost use Rattle.beet_view.specs.Transcripts.{counted_bytes, numbers_bytes, own_bytes, seen_bytes};
ghost use Rattle.beet_weights.specs.Quadratics.{IsServer};
ghost use Rattle.beet_coalition.specs.Lists.{at_server};
ghost use Rattle.beet_five_server.specs.Cores.{has_ended};
ghost use Rattle.beet_five_server.specs.Fits.{Fits};
ghost use Rattle.beet_five_server.specs.Network.{sends_to};
ghost use Rattle.beet_five_server.specs.Parts.{hidden};
ghost use Rattle.beet_plan.specs.FivePlan.{five_batch};
ghost use Rattle.beet_five_dealing.specs.FiveInputs.{setup_of, share_for};
ghost use Rattle.beet_five_dealing.specs.FiveWords.{CanRun};
ghost use Rattle.beet_five_view.specs.CoreViews.{numbers_received, round_received, rounds_received, view_of_core};
ghost use Rattle.beet_five_view.specs.JointBooks.{joint_transcript, own_at, seen_at};
ghost use Rattle.beet_five_view.specs.JointViews.{grid_bytes, magic, number_of_policy, round_bytes, view_bytes};

use beet_bids::{Bidder, Book, Curve, Grid, Policy};
use beet_field::Fe;
use beet_five_dealing::FiveWords;
use beet_five_server::FiveCore;
use beet_map::number_at;
use beet_search::FiveScript;
use beet_two_books::quantities_of;
use beet_view::{mark_of, number_of_gates, numbers_for_bidders};
use beet_weights::Quadratic;
use beet_words::{WIDTH, WordList, numbers_in, push_list, push_number, push_points};
use std::alloc::{AllocError, Global};

/// The text that the file begins with.
const MAGIC: &[u8] = b"BEETFV01";

/// Appends numbers.
fn push_numbers(file: &mut Vec<u8>, numbers: &[u64]) -> Result<(), AllocError>
    ensures { OnOk result (file.new.items ≡ file.old.items ++ numbers_bytes numbers.now) }
{
    for number in numbers {
        push_number(file, *number)?;
    }
    Ok(())
}

fn number_of_policy(policy: Policy) -> u64
    ensures { result ≡ number_of_policy policy }
{
    match policy {
        Policy::Price => 0,
        Policy::Volume => 1,
        Policy::Full => 2,
    }
}

fn push_grid(file: &mut Vec<u8>, grid: &Grid) -> Result<(), AllocError>
    ensures { OnOk result (file.new.items ≡ file.old.items ++ grid_bytes grid.now) }
{
    push_numbers(
        file,
        &[
            grid.base(),
            grid.tick(),
            grid.prices() as u64,
            number_of_gates(grid.gates()),
            number_of_policy(grid.policy()),
        ],
    )
}

/// Appends a server's shares of values, each hidden by the next two of the numbers.
fn push_hidden(
    file: &mut Vec<u8>,
    server: u32,
    values: &[Fe],
    numbers: &[Fe],
) -> Result<(), AllocError>
    ensures { OnOk result (file.new.items
        ≡ file.old.items ++ numbers_bytes (hidden values.now numbers.now server)) }
{
    for k in 0..values.len() {
        let share = Quadratic {
            value: values[k],
            first: number_at(numbers, 2 * k),
            second: number_at(numbers, 2 * k + 1),
        };
        push_number(file, share.at(server).value())?;
    }
    Ok(())
}

/// A bidder over a grid, who deals by these words, at a server.
#[derive(Clone, Copy)]
struct BidderAt<'a> {
    server: u32,
    grid: &'a Grid,
    bidder: &'a Bidder,
    words: &'a WordList,
}

/// Appends the server's shares of the quantities of a bidder, which its words hide.
fn push_shares(alloc: Global, file: &mut Vec<u8>, at: &BidderAt<'_>) -> Result<(), AllocError>
    requires { IsOfGrid at.now.grid.now at.now.bidder.now.curve }
    ensures { OnOk result (file.new.items ≡ file.old.items ++ numbers_bytes (each
        (share_for (record { bidder = at.now.bidder.now; words = at.now.words.now }) at.now.server)
        (2 * at.now.grid.now.prices))) }
{
    let values = quantities_of(alloc, at.grid, &at.bidder.curve)?;
    let numbers = numbers_in(alloc, at.words.as_slice())?;
    push_hidden(file, at.server, &values, &numbers)
}

/// Appends the curve and the words of a bidder, if the server knows it.
fn push_own(file: &mut Vec<u8>, at: &BidderAt<'_>) -> Result<(), AllocError>
    ensures { OnOk result (file.new.items ≡ file.old.items
        ++ own_bytes (own_at at.now.server (record { bidder = at.now.bidder.now; words = at.now.words.now }))) }
{
    let knows = mark_of(at.bidder.known) == at.server as u64;
    if knows {
        push_numbers(file, at.bidder.curve.bought())?;
        push_numbers(file, at.bidder.curve.sold())?;
        push_list(file, at.words)?;
    }
    Ok(())
}

/// Appends a bidder as the server sees it.
fn push_bidder(alloc: Global, file: &mut Vec<u8>, at: &BidderAt<'_>) -> Result<(), AllocError>
    requires { IsOfGrid at.now.grid.now at.now.bidder.now.curve }
    ensures { OnOk result (file.new.items ≡ file.old.items ++ seen_bytes
        (seen_at at.now.grid.now.prices at.now.server
        (record { bidder = at.now.bidder.now; words = at.now.words.now }))) }
{
    push_number(file, mark_of(at.bidder.known))?;
    push_shares(alloc, file, at)?;
    push_own(file, at)
}

/// Appends the bidders of a book, who deal by these words, as a server sees them.
fn push_bidders(
    alloc: Global,
    file: &mut Vec<u8>,
    server: u32,
    book: &Book,
    words: &[WordList],
) -> Result<(), AllocError>
    requires { length words.now ≡ length book.now.bidders }
    ensures { OnOk result (file.new.items ≡ file.old.items ++ flat_map seen_bytes
        (map (seen_at book.now.grid.prices server) (farmers_of book.now.bidders words.now))) }
{
    let bidders = book.bidders();
    for k in 0..bidders.len() {
        let at = BidderAt {
            server,
            grid: book.grid(),
            bidder: &bidders[k],
            words: &words[k],
        };
        push_bidder(alloc, file, &at)?;
    }
    Ok(())
}

/// The numbers that a server has received from another in a round.
fn numbers_from(core: &FiveCore<FiveScript>, round: u32, from: u32) -> &[Fe]
    requires { IsServer from }
    ensures { result.now ≡ numbers_received core.now round from }
{
    match core.received(from, round) {
        Some(numbers) => numbers,
        None => &[],
    }
}

/// Appends what a server has received from a peer in a round, and nothing if that is the server itself.
fn push_message(
    file: &mut Vec<u8>,
    core: &FiveCore<FiveScript>,
    round: u32,
    from: u32,
) -> Result<(), AllocError>
    requires { IsServer from }
    ensures { OnOk result (file.new.items ≡ file.old.items
        ++ (if sends_to from core.now.work.me then counted_bytes number_bytes (numbers_received core.now round from)
        else [])) }
{
    if from != core.me() {
        let numbers = numbers_from(core, round, from);
        push_number(file, numbers.len() as u64)?;
        push_points(file, numbers)?;
    }
    Ok(())
}

/// Appends what a server has received from its four peers in a round, in rising order.
fn push_round(file: &mut Vec<u8>, core: &FiveCore<FiveScript>, round: u32) -> Result<(), AllocError>
    requires { IsServer core.now.work.me }
    ensures { OnOk result (file.new.items ≡ file.old.items ++ round_bytes (round_received core.now round)) }
{
    push_message(file, core, round, 1)?;
    push_message(file, core, round, 2)?;
    push_message(file, core, round, 3)?;
    push_message(file, core, round, 4)?;
    push_message(file, core, round, 5)
}

/// Appends what a server has received in all rounds that it has passed.
fn push_rounds(file: &mut Vec<u8>, core: &FiveCore<FiveScript>) -> Result<(), AllocError>
    requires { IsServer core.now.work.me }
    ensures { OnOk result (file.new.items ≡ file.old.items ++ flat_map round_bytes (rounds_received core.now)) }
{
    for round in 0..core.round() {
        push_round(file, core, round)?;
    }
    Ok(())
}

/// The list of a server, of the lists of all five.
fn list_of(lists: &[WordList], server: u32) -> &WordList
    requires server { IsServer server }
    requires five { length lists.now ≡ 5 }
    ensures { result.now ≡ at_server lists.now server }
{
    &lists[server as usize - 1]
}

/// Appends what a server sees of the auction of a book.
fn push_view(
    alloc: Global,
    file: &mut Vec<u8>,
    book: &Book,
    words: &FiveWords,
    core: &FiveCore<FiveScript>,
) -> Result<(), AllocError>
    requires masks { length words.now.masks ≡ 5 }
    requires coefficients { length words.now.coefficients ≡ 5 }
    requires bidders { length words.now.bidders ≡ length book.now.bidders }
    ensures bytes { OnOk result (file.new.items
        ≡ file.old.items ++ view_bytes (view_of_core book.now words.now core.now)) }
    ensures server { IsServer core.now.work.me }
    ensures book { IsBook book.now }
{
    let me = core.me();
    let bidders = book.bidders();
    push_number(file, me as u64)?;
    push_grid(file, book.grid())?;
    push_number(file, bidders.len() as u64)?;
    push_bidders(alloc, file, me, book, &words.bidders)?;
    push_list(file, list_of(&words.masks, me))?;
    push_list(file, list_of(&words.coefficients, me))?;
    push_number(file, core.round() as u64)?;
    push_rounds(file, core)
}

/// How many numbers of a view stand beside those of bidders, tapes and messages: the server, five of the grid, and four
/// counts.
const NUMBERS_BESIDE: usize = 10;

/// How many numbers stand for the messages of a round at a server.
fn numbers_for_round(core: &FiveCore<FiveScript>, round: u32) -> usize {
    let mut numbers: usize = 0;
    for from in 1..6 {
        if from != core.me() {
            numbers = numbers.saturating_add(1 + numbers_from(core, round, from).len());
        }
    }
    numbers
}

/// How many numbers stand for the messages of all rounds at a server.
fn numbers_for_rounds(core: &FiveCore<FiveScript>) -> usize {
    let mut numbers: usize = 0;
    for round in 0..core.round() {
        numbers = numbers.saturating_add(numbers_for_round(core, round));
    }
    numbers
}

/// How many numbers stand for what a server sees.
fn numbers_for_view(book: &Book, words: &FiveWords, core: &FiveCore<FiveScript>) -> usize
    requires masks { length words.now.masks ≡ 5 }
    requires coefficients { length words.now.coefficients ≡ 5 }
{
    let me = core.me();
    let masks = list_of(&words.masks, me).as_slice().len();
    let coefficients = list_of(&words.coefficients, me).as_slice().len();
    let bidders = numbers_for_bidders(book.grid(), book.bidders(), &words.bidders, me as u64);
    let numbers = bidders.saturating_add(numbers_for_rounds(core));
    numbers
        .saturating_add(masks)
        .saturating_add(coefficients)
        .saturating_add(NUMBERS_BESIDE)
}

/// How many bytes the file has, so that memory is taken once; no clause rests on it.
fn room_for(
    book: &Book,
    words: &FiveWords,
    one: &FiveCore<FiveScript>,
    other: &FiveCore<FiveScript>,
) -> usize
    requires masks { length words.now.masks ≡ 5 }
    requires coefficients { length words.now.coefficients ≡ 5 }
{
    let numbers = numbers_for_view(book, words, one);
    let numbers = numbers.saturating_add(numbers_for_view(book, words, other));
    // The text stands before them, as long as a number.
    numbers.saturating_add(1).saturating_mul(WIDTH)
}

/// A file with the text that it begins with, and with room for so many bytes.
fn begin(alloc: Global, room: usize) -> Result<Vec<u8>, AllocError>
    ensures { IfOk result (λ file. file.items ≡ magic) }
{
    let mut file = Vec::with_capacity(alloc, room)?;
    file.extend_from_slice(MAGIC)?;
    Ok(file)
}

/// What two of five servers see together of the auction of a book, whose gates are chains: the joint transcript of two
/// servers that have ended.
///
/// The file is `BEETFV01` and then, for the one server and for the other, each number in 8 bytes with the highest
/// first: the server, 1 to 5; base, tick and number of prices of the grid; 0 for chain gates; the policy, 0 for the
/// price alone, 1 for the volume too and 2 for the supply too; the number of bidders; for each its mark, 0 to 3, its
/// shares at the server, first of what it buys and then of what it sells at each price, and only if the mark is the
/// server's number the quantities themselves, and the count and the words by which it deals; the count and the mask
/// words of the server; the count and its coefficient words; the number of rounds; and for each round the count and the
/// numbers of the messages of the four peers, in rising order. Want of memory is the only error.
pub fn write_joint(
    alloc: Global,
    book: &Book,
    words: &FiveWords,
    one: &FiveCore<FiveScript>,
    other: &FiveCore<FiveScript>,
) -> Result<Vec<u8>, AllocError>
    requires masks { length words.now.masks ≡ 5 }
    requires coefficients { length words.now.coefficients ≡ 5 }
    requires bidders { length words.now.bidders ≡ length book.now.bidders }
    requires one { has_ended five_batch one.now.work ≡ true }
    requires other { has_ended five_batch other.now.work ≡ true }
    ensures { (x y : Delivered ℕ) → book.now.grid.gates ≡ Chain → CanRun book.now words.now →
        Fits five_batch (setup_of book.now words.now) x one.now.work one.now.mail →
        Fits five_batch (setup_of book.now words.now) y other.now.work other.now.mail →
        IfOk result (λ file.
        file.items ≡ joint_transcript one.now.work.me other.now.work.me book.now words.now) }
{
    let mut file = begin(alloc, room_for(book, words, one, other))?;
    push_view(alloc, &mut file, book, words, one)?;
    push_view(alloc, &mut file, book, words, other)?;
    Ok(file)
}
