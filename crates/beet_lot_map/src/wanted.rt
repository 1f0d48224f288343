//! Whether words are enough for a session.

ghost use Rattle.std.specs.Prelude.{◌≡◌, ◌↔◌, IsTrue, length};
ghost use Rattle.beet_lot_map.specs.LotMaps.{AreEnoughEach};

use beet_auction_map::enough;
use beet_bids::Book;
use beet_words::Words;

/// Whether the words of each lot are enough for its book, of as many books as there are words of lots.
pub fn enough_each(books: &[Book], words: &[Words]) -> bool
    requires { length words.now ≡ length books.now }
    ensures { IsTrue result ↔ AreEnoughEach books.now words.now }
{
    for i in 0..books.len() {
        if !enough(&books[i], &words[i]) {
            return false;
        }
    }
    true
}
