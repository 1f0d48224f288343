//! The parts of a transcript that are lists of numbers.

ghost use Rattle.std.specs.Prelude.{◌≡◌, ◌≤◌, length, IfOk};
ghost use Rattle.beet_field.specs.declared.TheConstants.{MOST_NUMBERS};
ghost use Rattle.beet_forms.specs.Faults.{Answers};
ghost use Rattle.beet_words.specs.Fields.{times};
ghost use Rattle.beet_view.specs.Transcripts.{point_at, message_at};

use crate::quantities::{from_to, read_from_to};
use arrayvec::ArrayVec;
use beet_field::{Fe, MOST_NUMBERS, P};
use beet_forms::ReadFault;

/// A number of the field.
fn read_point(bytes: &[u8], at: usize) -> Result<(Fe, usize), ReadFault>
    requires { at ≤ length bytes.now }
    ensures point { Answers (λ read. read) (point_at bytes.now at) result }
    ensures within { IfOk result (λ read. read.1 ≤ length bytes.now) }
{
    beet_words::read_point(bytes, from_to(0, P - 1), at)
}

/// So many numbers of a message.
fn read_so_many_numbers(
    bytes: &[u8],
    count: u64,
    at: usize,
) -> Result<(ArrayVec<Fe, MOST_NUMBERS>, usize), ReadFault>
    requires at { at ≤ length bytes.now }
    requires count { count ≤ MOST_NUMBERS }
    ensures numbers { Answers (λ read. (read.0.items, read.1)) (times count (point_at bytes.now) at) result }
    ensures within { IfOk result (λ read. read.1 ≤ length bytes.now) }
{
    let mut numbers = ArrayVec::new();
    let mut next = at;
    for _k in 0..count {
        let (number, after) = read_point(bytes, next)?;
        numbers.push(number);
        next = after;
    }
    Ok((numbers, next))
}

/// A count from 1 to 64, and as many numbers of the field.
#[tactic(auto, unfolding(beet_words::specs::Fields::counted_at))]
pub(crate) fn read_message(
    bytes: &[u8],
    at: usize,
) -> Result<(ArrayVec<Fe, MOST_NUMBERS>, usize), ReadFault>
    requires { at ≤ length bytes.now }
    ensures numbers { Answers (λ read. (read.0.items, read.1)) (message_at bytes.now at) result }
    ensures within { IfOk result (λ read. read.1 ≤ length bytes.now) }
{
    let (count, at) = read_from_to(bytes, 1, MOST_NUMBERS as u64, at)?;
    read_so_many_numbers(bytes, count, at)
}
