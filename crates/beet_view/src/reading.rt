//! The reader of transcripts.

ghost use Rattle.std.specs.Prelude.{◌≡◌, ◌≤◌, length, IfOk, IfSome};
ghost use Rattle.beet_forms.specs.Faults.{Answers};
ghost use Rattle.beet_forms.specs.declared.faults.TheConstants.{LONGEST_FILE};
ghost use Rattle.beet_words.specs.Fields.{times, counted_at};
ghost use Rattle.beet_bids.specs.Grids.{IsGrid};
ghost use Rattle.beet_view.specs.Transcripts.{magic, from_to as allowed_from_to, gates_of, known_of, form_in};
ghost use Rattle.beet_view.specs.Transcripts.{server_at, policy_at, grid_at, most_bidders, own_at, own_where_known};
ghost use Rattle.beet_view.specs.Transcripts.{seen_at, round_at, view_in, view_bytes, FitsFile};

use crate::parts::read_message;
use crate::quantities::{Course, from_to, read_from_to};
use crate::view::{Received, RunView, Seen, View};
use beet_bids::{Curve, Grid, LARGEST_BASE, LARGEST_TICK, MOST_PRICES, Policy};
use beet_book::MOST_PRODUCT;
use beet_field::{P, Point};
use beet_forms::ReadFault;
use beet_gates::Gates;
use beet_plan::{coefficients_kept, masks_kept, words_kept};
use beet_words::{
    BAD_MAGIC, BAD_NUMBER, MOST_BIDDERS, TRAILING, WordList, read_end, read_list, read_magic,
    read_many, read_points,
};
use std::alloc::Global;

/// The largest number of rounds of a transcript.
pub const MOST_ROUNDS: u64 = 4_096;

/// The text that a transcript begins with, by whether it tells the policy.
pub(crate) fn magic(tells: bool) -> &'static [u8]
    ensures { result.now ≡ magic tells }
{
    if tells { b"BEETVW02" } else { b"BEETVW01" }
}

/// Whether a transcript tells the policy, and the offset after the text that it begins with.
fn read_form(bytes: &[u8]) -> Result<(bool, usize), ReadFault>
    ensures form { Answers (λ read. read) (form_in bytes.now) result }
    ensures within { IfOk result (λ read. read.1 ≤ length bytes.now) }
{
    let tells = !bytes.starts_with(magic(false));
    let at = read_magic(bytes, magic(tells), BAD_MAGIC)?;
    Ok((tells, at))
}

#[tactic(auto, unfolding(crate::specs::Transcripts::server_at))]
fn read_server(bytes: &[u8], at: usize) -> Result<(Point, usize), ReadFault>
    requires { at ≤ length bytes.now }
    ensures server { Answers (λ read. read) (server_at bytes.now at) result }
    ensures within { IfOk result (λ read. read.1 ≤ length bytes.now) }
{
    let (number, at) = read_from_to(bytes, 1, 3, at)?;
    let server = match number {
        1 => Point::One,
        2 => Point::Two,
        _ => Point::Three,
    };
    Ok((server, at))
}

/// The kind of gates of a number.
fn gates_of(number: u64) -> Gates
    ensures { result ≡ gates_of number }
{
    if number == 0 {
        Gates::Chain
    } else {
        Gates::Tree
    }
}

/// The policy, if the transcript tells one, or Volume.
#[tactic(auto, unfolding(crate::specs::Transcripts::policy_at))]
fn read_policy(bytes: &[u8], tells: bool, at: usize) -> Result<(Policy, usize), ReadFault>
    requires { at ≤ length bytes.now }
    ensures policy { Answers (λ read. read) (policy_at bytes.now tells at) result }
    ensures within { IfOk result (λ read. read.1 ≤ length bytes.now) }
{
    if !tells {
        return Ok((Policy::Volume, at));
    }
    let (number, after) = read_from_to(bytes, 0, 2, at)?;
    match number {
        0 => Ok((Policy::Price, after)),
        1 => Err(ReadFault::at_offset(at as u64, BAD_NUMBER)),
        _ => Ok((Policy::Full, after)),
    }
}

#[tactic(auto, unfolding(crate::specs::Transcripts::grid_at))]
fn read_grid(bytes: &[u8], tells: bool, at: usize) -> Result<(Grid, usize), ReadFault>
    requires { at ≤ length bytes.now }
    ensures grid { Answers (λ read. read) (grid_at bytes.now tells at) result }
    ensures limits { IfOk result (λ read. IsGrid read.0) }
    ensures within { IfOk result (λ read. read.1 ≤ length bytes.now) }
{
    let (base, at) = read_from_to(bytes, 0, LARGEST_BASE, at)?;
    let (tick, at) = read_from_to(bytes, 1, LARGEST_TICK, at)?;
    let (prices, at) = read_from_to(bytes, 1, MOST_PRICES as u64, at)?;
    let (gates, at) = read_from_to(bytes, 0, 1, at)?;
    let (policy, at) = read_policy(bytes, tells, at)?;
    let Some(grid) = Grid::new(base, tick, prices as u32, gates_of(gates)) else {
        unreachable!()
    };
    Ok((grid.with_policy(policy), at))
}

/// The curve and the words of a known bidder.
#[tactic(auto, unfolding(crate::specs::Transcripts::own_at))]
fn read_own(
    alloc: Global,
    bytes: &[u8],
    grid: &Grid,
    at: usize,
) -> Result<((Curve, WordList), usize), ReadFault>
    requires { at ≤ length bytes.now }
    ensures own { Answers (λ read. read) (own_at bytes.now grid.now.prices at) result }
    ensures within { IfOk result (λ read. read.1 ≤ length bytes.now) }
{
    let prices = grid.prices() as u64;
    let (buy, at) = Course::Falling.read(alloc, bytes, prices, at)?;
    let (sell, at) = Course::Rising.read(alloc, bytes, prices, at)?;
    let Some(curve) = Curve::of(grid, buy, sell) else {
        unreachable!()
    };
    let (words, at) = read_list(alloc, bytes, words_kept(grid) as u64, at)?;
    Ok(((curve, words), at))
}

/// The server that a mark from 0 to 3 names, or none for the mark 0.
fn known_of(mark: u64) -> Option<Point>
    ensures { result ≡ known_of mark }
{
    match mark {
        0 => None,
        1 => Some(Point::One),
        2 => Some(Point::Two),
        _ => Some(Point::Three),
    }
}

/// The curve and the words of a bidder with this mark, if the server knows it.
#[tactic(auto, unfolding(crate::specs::Transcripts::own_where_known))]
fn read_own_where_known(
    alloc: Global,
    bytes: &[u8],
    server: Point,
    grid: &Grid,
    mark: u64,
    at: usize,
) -> Result<(Option<(Curve, WordList)>, usize), ReadFault>
    requires { at ≤ length bytes.now }
    ensures own { Answers (λ read. read)
        (own_where_known bytes.now server grid.now.prices mark at) result }
    ensures within { IfOk result (λ read. read.1 ≤ length bytes.now) }
{
    if mark != server.number() {
        return Ok((None, at));
    }
    let (own, at) = read_own(alloc, bytes, grid, at)?;
    Ok((Some(own), at))
}

/// A bidder.
#[tactic(auto, unfolding(crate::specs::Transcripts::seen_at))]
fn read_seen(
    alloc: Global,
    bytes: &[u8],
    server: Point,
    grid: &Grid,
    at: usize,
) -> Result<(Seen, usize), ReadFault>
    requires { at ≤ length bytes.now }
    ensures seen { Answers (λ read. read) (seen_at bytes.now server grid.now.prices at) result }
    ensures within { IfOk result (λ read. read.1 ≤ length bytes.now) }
{
    let (mark, at) = read_from_to(bytes, 0, 3, at)?;
    let (points, at) = read_points(
        alloc,
        bytes,
        from_to(0, P - 1),
        2 * grid.prices() as u64,
        at,
    )?;
    let (own, at) = read_own_where_known(alloc, bytes, server, grid, mark, at)?;
    let known = known_of(mark);
    Ok((Seen { known, points, own }, at))
}

/// The most bidders of a grid.
fn most_bidders(grid: &Grid) -> u64
    ensures { result ≡ most_bidders grid.now.prices }
{
    let most = MOST_PRODUCT / grid.prices() as u64;
    if most < MOST_BIDDERS as u64 {
        most
    } else {
        MOST_BIDDERS as u64
    }
}

/// The bidders, after their count.
#[tactic(auto, unfolding(beet_words::specs::Fields::counted_at))]
fn read_bidders(
    alloc: Global,
    bytes: &[u8],
    server: Point,
    grid: &Grid,
    at: usize,
) -> Result<(Vec<Seen>, usize), ReadFault>
    requires { at ≤ length bytes.now }
    ensures bidders { Answers (λ read. (read.0.items, read.1))
        (counted_at bytes.now (allowed_from_to 0 (most_bidders grid.now.prices))
        (seen_at bytes.now server grid.now.prices) at) result }
    ensures within { IfOk result (λ read. read.1 ≤ length bytes.now) }
{
    let (count, at) = read_from_to(bytes, 0, most_bidders(grid), at)?;
    read_many(
        alloc,
        bytes,
        count,
        at,
        |from| read_seen(alloc, bytes, server, grid, from),
    )
}

/// What came in a round.
#[tactic(auto, unfolding(crate::specs::Transcripts::round_at))]
fn read_round(bytes: &[u8], at: usize) -> Result<(Received, usize), ReadFault>
    requires { at ≤ length bytes.now }
    ensures round { Answers (λ read. read) (round_at bytes.now at) result }
    ensures within { IfOk result (λ read. read.1 ≤ length bytes.now) }
{
    let (lower, at) = read_message(bytes, at)?;
    let (higher, at) = read_message(bytes, at)?;
    Ok((Received { lower, higher }, at))
}

/// What came in all rounds, after their count.
#[tactic(auto, unfolding(beet_words::specs::Fields::counted_at))]
fn read_rounds(alloc: Global, bytes: &[u8], at: usize) -> Result<(Vec<Received>, usize), ReadFault>
    requires { at ≤ length bytes.now }
    ensures rounds { Answers (λ read. (read.0.items, read.1))
        (counted_at bytes.now (allowed_from_to 0 MOST_ROUNDS) (round_at bytes.now) at) result }
    ensures within { IfOk result (λ read. read.1 ≤ length bytes.now) }
{
    let (count, at) = read_from_to(bytes, 0, MOST_ROUNDS, at)?;
    read_many(alloc, bytes, count, at, |from| read_round(bytes, from))
}

/// All parts of a transcript, up to its end.
#[tactic(auto, unfolding(crate::specs::Transcripts::view_in))]
fn read_parts(alloc: Global, bytes: &[u8]) -> Result<View, ReadFault>
    ensures view { Answers (λ view. view) (view_in bytes.now) result }
    ensures fits { IfOk result (λ view. FitsFile view) }
{
    let (tells, at) = read_form(bytes)?;
    let (server, at) = read_server(bytes, at)?;
    let (grid, at) = read_grid(bytes, tells, at)?;
    let (bidders, at) = read_bidders(alloc, bytes, server, &grid, at)?;
    let (masks, at) = read_list(alloc, bytes, masks_kept(&grid) as u64, at)?;
    let (coefficients, at) = read_list(alloc, bytes, coefficients_kept(&grid) as u64, at)?;
    let (rounds, at) = read_rounds(alloc, bytes, at)?;
    read_end(bytes, TRAILING, at)?;
    Ok(View {
        server,
        grid,
        bidders,
        run: RunView {
            masks,
            coefficients,
            rounds,
        },
    })
}

/// The view of a transcript.
///
/// After `BEETVW01`, or `BEETVW02` if the policy is not Volume, all is numbers of 8 bytes, the highest byte first:
/// the server, the base, the tick and the number of prices, 0 for a chain of gates or 1 for a tree, after `BEETVW02`
/// alone 0 for the policy Price or 2 for Full, and the number of bidders. For each bidder: its mark, which is 0 or the
/// number of the server that knows it, its buy points and its sell points; if the mark is the server, its buy and
/// its sell quantities, and its words after their count. Then the mask words and the coefficient words, each after
/// their count, the number of rounds, and for each round the numbers of the lower and then of the higher peer, each
/// after their count.
///
/// A transcript is refused at the first place from the left that breaks its format: for the reason 1 at 0 if it
/// begins with neither text; for the reason 2 at a field that is cut off; for the reason 3 at a field with a number
/// that is not allowed; for the reason 4 at the first byte after the last field. Allowed are 1 to 3 for the server; the
/// limits of a grid; at most 2,000 bidders, and at most 500,000 if each is counted once for each price; 0 to 3 for a
/// mark; points below the modulus; quantities below 2^48, none that is bought above and none that is sold below the one
/// before it; at most 2 words for each price and 8 more for a bidder; at most 2 mask words more than the
/// search has comparisons; at most 512 coefficient words for each of as many, and 8 more; words below 2^61; at most
/// 4,096 rounds; 1 to 64 numbers below the modulus in a message.
///
/// The file is gone over once, and memory is taken for no more items than it can hold.
pub fn read_view(alloc: Global, bytes: &[u8]) -> Result<View, ReadFault>
    requires { length bytes.now ≤ LONGEST_FILE }
    ensures view { Answers (λ view. view) (view_in bytes.now) result }
    ensures fits { IfOk result (λ view. FitsFile view) }
    ensures bytes { IfOk result (λ view. view_bytes view ≡ bytes.now) }
{
    let view = read_parts(alloc, bytes)?;
    Ok(view)
}
