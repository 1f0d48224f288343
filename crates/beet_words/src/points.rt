//! Numbers of the field in binary files.

ghost use Rattle.std.specs.Prelude.{◌≡◌, ◌≤◌, ◌<◌, ◌++◌, length, All, IfOk, OnOk};
ghost use Rattle.std.specs.List.{flat_map};
ghost use Rattle.beet_field.specs.Field.{IsElement, p};
ghost use Rattle.beet_forms.specs.Faults.{Answers};
ghost use Rattle.beet_words.specs.Fields.{number_at, number_bytes, times};

use crate::fields::{Allowed, push_number, read_number, room};
use crate::word::FeList;
use beet_field::Fe;
use beet_forms::ReadFault;
use std::alloc::{AllocError, Global};

/// A number of the field, and the offset after it.
pub fn read_point(bytes: &[u8], allowed: Allowed, at: usize) -> Result<(Fe, usize), ReadFault>
    requires at { at ≤ length bytes.now }
    requires below { allowed.high < p }
    ensures point { Answers (λ read. read) (number_at bytes.now allowed at) result }
    ensures within { IfOk result (λ read. read.1 ≤ length bytes.now) }
{
    let (number, at) = read_number(bytes, allowed, at)?;
    let Some(point) = Fe::of(number) else {
        unreachable!()
    };
    Ok((point, at))
}

/// So many numbers of the field, and the offset after the last. Room is taken at once for all that the file can hold,
/// so that none is tested for when a number is put.
pub fn read_points(
    alloc: Global,
    bytes: &[u8],
    allowed: Allowed,
    count: u64,
    at: usize,
) -> Result<(FeList, usize), ReadFault>
    requires at { at ≤ length bytes.now }
    requires below { allowed.high < p }
    ensures points { Answers (λ read. read) (times count (number_at bytes.now allowed) at) result }
    ensures count { IfOk result (λ read. length read.0 ≡ count) }
    ensures within { IfOk result (λ read. read.1 ≤ length bytes.now) }
{
    let mut points = Vec::with_capacity(alloc, room(bytes, at, count))?;
    let mut next = at;
    for _k in 0..count {
        let (point, after) = read_point(bytes, allowed, next)?;
        points.push_reserved(point);
        next = after;
    }
    Ok((FeList::of(points), next))
}

/// Appends numbers of the field.
pub fn push_points(file: &mut Vec<u8>, points: &[Fe]) -> Result<(), AllocError>
    ensures bytes { OnOk result (file.new.items ≡ file.old.items ++ flat_map number_bytes points.now) }
    ensures points { OnOk result (All IsElement points.now) }
{
    for point in points {
        push_number(file, point.value())?;
    }
    Ok(())
}
