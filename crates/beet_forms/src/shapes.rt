//! Rows of a known width.

ghost use Rattle.std.specs.Prelude.{◌≡◌, ◌↔◌, ◌<◌, [], ◌∷◌, Some, None, IsTrue, MatchOption, length};
ghost use Rattle.beet_forms.specs.Rows.{same_row, two_of, three_of, four_of, five_of};
ghost use Rattle.csv.specs.Records.{field_at};

use crate::Row;

/// The field at a place within the row.
fn field_within(row: &Row, i: usize) -> &[u8]
    requires { i < length row.now }
    ensures { field_at row.now i ≡ Some result.now }
{
    match row.field(i) {
        Some(field) => field,
        None => unreachable!(),
    }
}

/// The two fields of a row that has two.
pub fn two_fields(row: &Row) -> Option<(&[u8], &[u8])>
    ensures { MatchOption result (two_of row.now ≡ None) (λ f. row.now ≡ f.0.now ∷ f.1.now ∷ []) }
{
    if row.len() != 2 {
        return None;
    }
    Some((field_within(row, 0), field_within(row, 1)))
}

/// The three fields of a row that has three.
pub fn three_fields(row: &Row) -> Option<(&[u8], &[u8], &[u8])>
    ensures { MatchOption result (three_of row.now ≡ None) (λ f. row.now ≡ f.0.now ∷ f.1.now ∷ f.2.now ∷ []) }
{
    if row.len() != 3 {
        return None;
    }
    Some((
        field_within(row, 0),
        field_within(row, 1),
        field_within(row, 2),
    ))
}

/// The four fields of a row that has four.
pub fn four_fields(row: &Row) -> Option<(&[u8], &[u8], &[u8], &[u8])>
    ensures { MatchOption result (four_of row.now ≡ None) (λ f. row.now ≡ f.0.now ∷ f.1.now ∷ f.2.now ∷ f.3.now ∷ []) }
{
    if row.len() != 4 {
        return None;
    }
    let (first, second) = (field_within(row, 0), field_within(row, 1));
    Some((first, second, field_within(row, 2), field_within(row, 3)))
}

/// The five fields of a row that has five.
pub fn five_fields(row: &Row) -> Option<(&[u8], &[u8], &[u8], &[u8], &[u8])>
    ensures { MatchOption result (five_of row.now ≡ None)
        (λ f. row.now ≡ f.0.now ∷ f.1.now ∷ f.2.now ∷ f.3.now ∷ f.4.now ∷ []) }
{
    if row.len() != 5 {
        return None;
    }
    let (first, second) = (field_within(row, 0), field_within(row, 1));
    Some((
        first,
        second,
        field_within(row, 2),
        field_within(row, 3),
        field_within(row, 4),
    ))
}

/// Whether a row is these two fields, byte for byte.
pub fn is_header(row: &Row, kind: &[u8], version: &[u8]) -> bool
    ensures test { result ≡ same_row row.now (kind.now ∷ version.now ∷ []) }
    ensures same { IsTrue result ↔ (row.now ≡ kind.now ∷ version.now ∷ []) }
{
    match two_fields(row) {
        Some((first, second)) => first == kind && second == version,
        None => false,
    }
}
