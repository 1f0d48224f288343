//! Two sessions that are read, as the job keeps them.

ghost use Rattle.std.specs.Prelude.{◌≡◌, ◌++◌, ◌∷◌, [], OnOk};

use beet_bids::Book;
use beet_load::Whole;
use beet_lot_files::Lots;
use beet_words::Words;
use std::alloc::{AllocError, Global};

/// The lots of a session that are kept whole: the book and the words of each, and what they take together of the limit
/// on a session.
#[derive(Drop)]
pub struct WholeLots {
    pub books: Vec<Book>,
    pub words: Vec<Words>,
    pub product: u64,
}

impl WholeLots {
    /// No lot yet.
    pub(crate) fn new(alloc: Global) -> WholeLots
        ensures books { result.books.items ≡ [] }
        ensures words { result.words.items ≡ [] }
        ensures product { result.product ≡ 0 }
    {
        WholeLots {
            books: Vec::new(alloc),
            words: Vec::new(alloc),
            product: 0,
        }
    }

    /// One lot more, with which so much of the limit is taken.
    pub(crate) fn push(&mut self, whole: Whole, product: u64) -> Result<(), AllocError>
        ensures books { OnOk result (self.new.books.items ≡ self.old.books.items ++ whole.book ∷ []) }
        ensures words { OnOk result (self.new.words.items ≡ self.old.words.items ++ whole.words ∷ []) }
        ensures product { OnOk result (self.new.product ≡ product) }
    {
        self.books.push(whole.book)?;
        self.words.push(whole.words)?;
        self.product = product;
        Ok(())
    }
}

/// Two sessions that are read: the rows and the lots of the first, and the books of the second.
#[derive(Drop)]
pub struct BothSessions {
    pub rows: Lots,
    pub lots: WholeLots,
    pub seconds: Vec<Book>,
}
