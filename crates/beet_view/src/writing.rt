//! The writer of transcripts.

ghost use Rattle.std.specs.Prelude.{◌≡◌, ◌≤◌, ◌++◌, ◌*◌, [], ℕ, List, Ok, Some, IfOk, OnOk, All, length, option_map};
ghost use Rattle.std.specs.List.{flat_map};
ghost use Rattle.beet_field.specs.Field.{IsElement};
ghost use Rattle.beet_forms.specs.declared.faults.TheConstants.{LONGEST_FILE};
ghost use Rattle.beet_words.specs.Fields.{number_bytes};
ghost use Rattle.beet_words.specs.Words.{IsWord};
ghost use Rattle.beet_bids.specs.Curves.{IsCurve};
ghost use Rattle.beet_bids.specs.Grids.{IsGrid};
ghost use Rattle.beet_view.specs.declared.view.Seen.{Seen as Shown};
ghost use Rattle.beet_view.specs.Views.{IsSeenAt, IsView};
ghost use Rattle.beet_view.specs.Transcripts.{tells_policy, magic, mark_of, number_of_gates, policy_field};
ghost use Rattle.beet_view.specs.Transcripts.{numbers_bytes, counted_bytes, header_bytes, grid_bytes, sealed_bytes};
ghost use Rattle.beet_view.specs.Transcripts.{own_bytes, seen_bytes, round_bytes, run_bytes, view_bytes, view_in};
ghost use Rattle.beet_view.specs.Transcripts.{FitsFile, HasElements, HasNumbers, AreNumbers};

use crate::reading::magic;
use crate::view::{Received, RunView, Seen, View};
use beet_bids::{Bidder, Curve, Grid, Policy};
use beet_field::{Fe, Point};
use beet_gates::Gates;
use beet_words::{WIDTH, WordList, push_list, push_number, push_points};
use std::alloc::{AllocError, Global};

/// A part of a transcript, of which there may be many in a row.
trait Item {
    /// The bytes of an item.
    ghost bytes_of: { Self → List ℕ };

    /// What is known of the numbers of an item that was written.
    ghost limits_of: { Self → Type 0 };

    /// Appends the item.
    fn push(&self, file: &mut Vec<u8>) -> Result<(), AllocError>
        ensures bytes { OnOk result (file.new.items ≡ file.old.items ++ bytes_of self.now) }
        ensures limits { OnOk result (limits_of self.now) };
}

/// Appends items one after another.
fn push_each<T: Item>(file: &mut Vec<u8>, items: &[T]) -> Result<(), AllocError>
    ensures bytes { OnOk result (file.new.items ≡ file.old.items ++ flat_map T.bytes_of items.now) }
    ensures limits { OnOk result (All T.limits_of items.now) }
{
    for item in items {
        item.push(file)?;
    }
    Ok(())
}

impl Item for u64 {
    ghost use Rattle.std.specs.Prelude.{◌<◌, ◌^◌};
    ghost use Rattle.beet_words.specs.Fields.{number_bytes};

    ghost bytes_of = { number_bytes };

    ghost limits_of = { λ number. number < 2 ^ 64 };

    fn push(&self, file: &mut Vec<u8>) -> Result<(), AllocError> {
        push_number(file, *self)
    }
}

fn push_numbers(file: &mut Vec<u8>, numbers: &[u64]) -> Result<(), AllocError>
    ensures { OnOk result (file.new.items ≡ file.old.items ++ numbers_bytes numbers.now) }
{
    push_each(file, numbers)
}

/// The mark that names a server, or 0 for none.
pub fn mark_of(known: Option<Point>) -> u64
    ensures { result ≡ mark_of known }
{
    match known {
        None => 0,
        Some(at) => at.number(),
    }
}

/// The number of a kind of gates.
pub fn number_of_gates(gates: Gates) -> u64
    ensures { result ≡ number_of_gates gates }
{
    match gates {
        Gates::Chain => 0,
        Gates::Tree => 1,
    }
}

/// The number of a policy, if a transcript tells it.
fn policy_field(policy: Policy) -> &'static [u64]
    ensures { result.now ≡ policy_field policy }
{
    match policy {
        Policy::Price => &[0],
        Policy::Volume => &[],
        Policy::Full => &[2],
    }
}

fn push_grid(file: &mut Vec<u8>, grid: &Grid) -> Result<(), AllocError>
    ensures bytes { OnOk result (file.new.items ≡ file.old.items ++ grid_bytes grid.now) }
    ensures grid { IsGrid grid.now }
{
    push_numbers(
        file,
        &[
            grid.base(),
            grid.tick(),
            grid.prices() as u64,
            number_of_gates(grid.gates()),
        ],
    )?;
    push_numbers(file, policy_field(grid.policy()))
}

/// Appends the text that a transcript over a grid begins with.
fn push_magic(file: &mut Vec<u8>, grid: &Grid) -> Result<(), AllocError>
    ensures { OnOk result (file.new.items ≡ file.old.items ++ magic (tells_policy grid.now.policy)) }
{
    file.extend_from_slice(magic(grid.policy() != Policy::Volume))?;
    Ok(())
}

/// Appends what a transcript begins with: its text, the server, the grid, and the number of the bidders.
pub(crate) fn push_header(
    file: &mut Vec<u8>,
    server: Point,
    grid: &Grid,
    bidders: usize,
) -> Result<(), AllocError>
    ensures bytes { OnOk result (file.new.items ≡ file.old.items ++ header_bytes server grid.now bidders) }
    ensures grid { OnOk result (IsGrid grid.now) }
{
    push_magic(file, grid)?;
    push_number(file, server.number())?;
    push_grid(file, grid)?;
    push_number(file, bidders as u64)?;
    Ok(())
}

/// Appends the mark of a bidder and its points.
fn push_sealed(file: &mut Vec<u8>, known: Option<Point>, points: &[Fe]) -> Result<(), AllocError>
    ensures bytes { OnOk result (file.new.items ≡ file.old.items ++ sealed_bytes known points.now) }
    ensures points { OnOk result (All IsElement points.now) }
{
    push_number(file, mark_of(known))?;
    push_points(file, points)
}

/// Appends the curve and the words of a bidder, which stand behind its points if the server knows it.
fn push_own(file: &mut Vec<u8>, curve: &Curve, words: &WordList) -> Result<(), AllocError>
    ensures bytes { OnOk result (file.new.items ≡ file.old.items ++ own_bytes (Some (curve.now, words.now))) }
    ensures curve { IsCurve curve.now }
    ensures words { OnOk result (All IsWord words.now) }
{
    push_numbers(file, curve.bought())?;
    push_numbers(file, curve.sold())?;
    push_list(file, words)
}

/// Appends a bidder: its mark, its points, and its curve and its words if the server knows it.
pub(crate) fn push_seen(
    file: &mut Vec<u8>,
    known: Option<Point>,
    points: &[Fe],
    own: Option<(&Curve, &WordList)>,
) -> Result<(), AllocError>
    ensures bytes { OnOk result (file.new.items ≡ file.old.items ++ seen_bytes (record {
      known = known;
      points = points.now;
      own = option_map (λ o. (o.0.now, o.1.now)) own.entry;
    })) }
    ensures limits { OnOk result (HasNumbers (record {
      known = known;
      points = points.now;
      own = option_map (λ o. (o.0.now, o.1.now)) own.entry;
    })) }
{
    push_sealed(file, known, points)?;
    if let Some((curve, words)) = own {
        push_own(file, curve, words)?;
    }
    Ok(())
}

impl Item for Seen {
    ghost use Rattle.beet_view.specs.Transcripts.{seen_bytes, HasNumbers};

    ghost bytes_of = { seen_bytes };

    ghost limits_of = { HasNumbers };

    fn push(&self, file: &mut Vec<u8>) -> Result<(), AllocError> {
        let own = match &self.own {
            None => None,
            Some((curve, words)) => Some((curve, words)),
        };
        push_seen(file, self.known, self.points.as_slice(), own)
    }
}

fn push_message(file: &mut Vec<u8>, numbers: &[Fe]) -> Result<(), AllocError>
    ensures bytes { OnOk result (file.new.items ≡ file.old.items ++ counted_bytes number_bytes numbers.now) }
    ensures numbers { OnOk result (All IsElement numbers.now) }
{
    push_number(file, numbers.len() as u64)?;
    push_points(file, numbers)
}

impl Item for Received {
    ghost use Rattle.beet_view.specs.Transcripts.{round_bytes, HasElements};

    ghost bytes_of = { round_bytes };

    ghost limits_of = { HasElements };

    fn push(&self, file: &mut Vec<u8>) -> Result<(), AllocError> {
        push_message(file, self.lower())?;
        push_message(file, self.higher())
    }
}

/// Appends what a server sees of a run.
pub fn push_run(file: &mut Vec<u8>, run: &RunView) -> Result<(), AllocError>
    ensures bytes { OnOk result (file.new.items ≡ file.old.items ++ run_bytes run.now) }
    ensures masks { OnOk result (All IsWord run.now.masks) }
    ensures coefficients { OnOk result (All IsWord run.now.coefficients) }
    ensures rounds { OnOk result (All HasElements run.now.rounds) }
{
    push_list(file, &run.masks)?;
    push_list(file, &run.coefficients)?;
    let rounds = run.received();
    push_number(file, rounds.len() as u64)?;
    push_each(file, rounds)?;
    Ok(())
}

/// How many numbers stand for a bidder: its mark, its points, and its curve and these words if the server knows it.
fn numbers_for_bidder(grid: &Grid, words: Option<&WordList>) -> usize
    ensures { (server : Point) (seen : Shown) → IsSeenAt server grid.now seen
        → option_map (λ own. own.1) seen.own ≡ option_map (λ list. list.now) words.entry
        → WIDTH * result ≡ length (seen_bytes seen) }
{
    let quantities = 2 * grid.prices() as usize;
    let sealed = 1 + quantities;
    match words {
        None => sealed,
        Some(list) => sealed + quantities + 1 + list.as_slice().len(),
    }
}

/// How many numbers stand for bidders with these words in the transcript of the server of a mark. Memory for them is
/// then taken once; no clause rests on it.
pub fn numbers_for_bidders(
    grid: &Grid,
    bidders: &[Bidder],
    words: &[WordList],
    mark: u64,
) -> usize {
    let mut numbers: usize = 0;
    for (bidder, list) in bidders.iter().zip(words) {
        let own = if mark_of(bidder.known) == mark {
            Some(list)
        } else {
            None
        };
        numbers = numbers.saturating_add(numbers_for_bidder(grid, own));
    }
    numbers
}

/// How many numbers stand for bidders as they are seen.
fn numbers_for_seen(grid: &Grid, bidders: &[Seen]) -> usize {
    let mut numbers: usize = 0;
    for seen in bidders {
        let own = match &seen.own {
            None => None,
            Some((_, words)) => Some(words),
        };
        numbers = numbers.saturating_add(numbers_for_bidder(grid, own));
    }
    numbers
}

/// How many numbers stand for rounds.
fn numbers_for_rounds(rounds: &[Received]) -> usize {
    let mut numbers: usize = 0;
    for round in rounds {
        let messages = 2 + round.lower().len() + round.higher().len();
        numbers = numbers.saturating_add(messages);
    }
    numbers
}

/// How many numbers stand for what a server sees of a run: the words of both kinds and the rounds, each list after its
/// count.
fn numbers_for_run(run: &RunView) -> usize {
    let tapes = run.masks.as_slice().len() + run.coefficients.as_slice().len();
    numbers_for_rounds(run.received())
        .saturating_add(tapes)
        .saturating_add(3)
}

/// The 8 bytes at the start, the server, the first four numbers of the grid and the count of the bidders, each as long
/// as a number.
const HEADER_NUMBERS: usize = 7;

/// How many bytes a transcript has beside its bidders, so that memory for them is taken once; no clause rests on it.
pub(crate) fn room_beside(grid: &Grid, run: &RunView) -> usize {
    let header = HEADER_NUMBERS + policy_field(grid.policy()).len();
    numbers_for_run(run)
        .saturating_add(header)
        .saturating_mul(WIDTH)
}

/// How many bytes a view has, so that memory is taken once; no clause rests on it.
fn room_for(view: &View) -> usize {
    numbers_for_seen(view.grid(), view.bidders())
        .saturating_mul(WIDTH)
        .saturating_add(room_beside(view.grid(), &view.run))
}

/// Writes the transcript of a view into an empty file.
fn push_view(file: &mut Vec<u8>, view: &View) -> Result<(), AllocError>
    requires { file.old.items ≡ [] }
    ensures bytes { OnOk result (file.new.items ≡ view_bytes view.now) }
    ensures view { OnOk result (IsView view.now) }
    ensures numbers { OnOk result (AreNumbers view.now) }
{
    push_header(file, view.server(), view.grid(), view.bidders().len())?;
    push_each(file, view.bidders())?;
    push_run(file, &view.run)?;
    Ok(())
}

/// The transcript of a view, which [`read_view`](crate::read_view) describes. Want of memory is the only error.
///
/// The transcript of a view within the limits of the format is read back as the view, and is no longer than the reader
/// takes. One beyond them is written too, and refused by the reader.
pub fn write_view(alloc: Global, view: &View) -> Result<Vec<u8>, AllocError>
    ensures bytes { IfOk result (λ file. file.items ≡ view_bytes view.now) }
    ensures again { FitsFile view.now → IfOk result (λ file. view_in file.items ≡ Ok view.now) }
    ensures short { FitsFile view.now → IfOk result (λ file. length file.items ≤ LONGEST_FILE) }
{
    let mut file = Vec::with_capacity(alloc, room_for(view))?;
    push_view(&mut file, view)?;
    Ok(file)
}
