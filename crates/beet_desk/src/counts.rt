//! How many notes the desk has of each server, and how many numbers they name.

ghost use Rattle.std.specs.Prelude.{◌≡◌, ◌<◌, ◌≤◌, ◌*◌, ◌^◌, ℕ, length, [], Some, slice_get};
ghost use Rattle.beet_field.specs.Trio.{member, trio_of};
ghost use Rattle.beet_field.specs.declared.TheConstants.{MOST_NUMBERS};
ghost use Rattle.beet_field.specs.declared.point.Point.{Point};
ghost use Rattle.beet_desk.specs.Ends.{AreSmall, AreFirst};
ghost use Rattle.beet_desk.specs.Counts.{Added, HasPlace, IsTally, count_of, none_yet, one_more, together};
ghost use Rattle.beet_desk.specs.Counts.{with_note};

use crate::ending::Ending;
use crate::ends::{NoteRest, NoteRx};
use beet_field::{Point, Trio};
use beet_station::DeskNote;
use std::sync::Wait;

/// How many notes, and how many numbers they name.
#[derive(Clone, Copy, PartialEq, Eq, Debug)]
pub struct NoteCount {
    pub notes: u32,
    pub opened: u64,
}

/// No notes yet.
fn no_notes() -> Trio<NoteCount>
    ensures { result ≡ trio_of (λ _. none_yet) }
{
    let none = NoteCount {
        notes: 0,
        opened: 0,
    };
    Trio {
        one: none,
        two: none,
        three: none,
    }
}

/// The count with one note more.
fn counted(count: NoteCount, note: &DeskNote) -> NoteCount
    requires few { length note.now.numbers.items ≤ MOST_NUMBERS }
    requires notes { count.notes < 2 ^ 31 }
    requires opened { count.opened ≤ MOST_NUMBERS * count.notes }
    ensures { result ≡ one_more note.now count }
{
    NoteCount {
        notes: count.notes + 1,
        opened: count.opened + note.numbers.as_slice().len() as u64,
    }
}

/// The counts with one note more of its server.
fn with_note(counts: Trio<NoteCount>, note: &DeskNote) -> Trio<NoteCount>
    requires few { length note.now.numbers.items ≤ MOST_NUMBERS }
    requires notes { (member counts note.now.server).notes < 2 ^ 31 }
    requires opened { (member counts note.now.server).opened ≤ MOST_NUMBERS * (member counts note.now.server).notes }
    ensures { result ≡ with_note note.now counts }
{
    let Trio { one, two, three } = counts;
    match note.server {
        Point::One => Trio {
            one: counted(one, note),
            two,
            three,
        },
        Point::Two => Trio {
            one,
            two: counted(two, note),
            three,
        },
        Point::Three => Trio {
            one,
            two,
            three: counted(three, note),
        },
    }
}

/// Takes notes and counts them, until the servers have ended and a later take found nothing. It takes all notes that
/// are there before it sleeps.
pub fn watch<R: Wait>(rt: &R, rx: NoteRx, ending: &Ending) -> (NoteRx, Trio<NoteCount>)
    requires none { rx.taken ≡ [] }
    requires small { (s : Point) → AreSmall (member rx.notes s) }
    ensures queue { result.0.queue ≡ rx.queue }
    ensures notes { result.0.notes ≡ rx.notes }
    ensures first { AreFirst result.0.notes result.0.taken }
    ensures counts { IsTally result.0.taken result.1 }
{
    let mut receiver = rx;
    let mut counts = no_notes();
    for _ in rt.forever() {
        let over = ending.is_told();
        match receiver.take(rt) {
            Some(note) => counts = with_note(counts, &note),
            None => {
                if over {
                    return (receiver, counts);
                }
                ending.sleep(rt);
            }
        }
    }
    unreachable!()
}

/// Counts what is left.
pub fn count_rest<R: Wait>(rt: &R, rest: NoteRest, counts: Trio<NoteCount>) -> Trio<NoteCount>
    requires { (s : Point) → HasPlace (member counts s) (member rest s) }
    ensures { (s : Point) → Added (member counts s) (member rest s) (member result s) }
{
    let mut left = rest;
    let mut sums = counts;
    for _ in rt.forever() {
        let Some(note) = left.next(rt) else {
            return sums;
        };
        sums = with_note(sums, &note);
    }
    unreachable!()
}
