//! What is dealt is of the book, and can be dealt.

ghost use Rattle.beet_bids.specs.Books.{Book, IsBook};
ghost use Rattle.beet_bids.specs.Sums.{sums_of};
ghost use Rattle.beet_linear_sharing.specs.Polynomials.{AreShared};
ghost use Rattle.beet_linear_sharing.specs.Schemes.{five_servers};
ghost use Rattle.beet_five_dealing.specs.FiveInputs.{setup_of};
ghost use Rattle.beet_five_dealing.specs.FiveWords.{CanRun, FiveWords};

/// For every book there are words with which its auction can be run.
pub fn there_are_words_for_every_book()
    ensures { (book : Book) → (words : FiveWords) × CanRun book words }
{}

/// What the bidders of a book deal among five servers, added up, are shares of the book's sums.
pub fn dealt_points_are_shares_of_the_sums()
    ensures { (book : Book) (words : FiveWords) → IsBook book → CanRun book words →
        AreShared five_servers (sums_of book) (setup_of book words).inputs }
{}
