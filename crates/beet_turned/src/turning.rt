//! Turned masks.

ghost use Rattle.std.specs.Prelude.{◌≡◌};
ghost use Rattle.beet_turned.specs.Turn.{turned};

use beet_field::Fe;
use beet_words::{Word, word_of};

/// The mask that shows the same sum if the number under it has lost `d`. A mask whose bits are all ones stays.
pub fn turn(r: Word, d: Fe) -> Word
    ensures { result ≡ turned r d }
{
    match r.field() {
        Some(number) => word_of(number.add(d)),
        None => r,
    }
}
