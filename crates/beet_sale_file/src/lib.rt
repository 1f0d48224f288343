//! Sale files: the gates and the bidders of a sealed sale at the second price.
#![tactic(auto)]

ghost use Rattle.std.specs.Prelude.{◌≡◌, ◌^◌, ◌-◌};
ghost use Rattle.beet_sale_plan.specs.declared.TheConstants.{FEWEST_SALE_BIDDERS, LARGEST_BID, MOST_SALE_BIDDERS};
ghost use Rattle.beet_sale_file.specs.declared.rows.TheConstants.{BAD_SALE_SOURCE};
ghost use Rattle.beet_sale_file.specs.declared.sale_file.TheConstants.{BAD_GATES, ONE_SALE_BIDDER_TOO_MANY, SALE_LIMIT};

mod rows;
mod sale;
mod sale_file;

pub use rows::{BAD_SALE_SOURCE, SaleBid, SaleRow};
pub use sale::Sale;
pub use sale_file::{BAD_GATES, ONE_SALE_BIDDER_TOO_MANY, SALE_LIMIT, read_sale};

/// The limits of sale files, and their reasons beside those of a book.
pub fn sale_files_have_these_numbers()
    ensures bytes { SALE_LIMIT ≡ 65536 }
    ensures fewest { FEWEST_SALE_BIDDERS ≡ 2 }
    ensures most { MOST_SALE_BIDDERS ≡ 16 }
    ensures one_too_many { ONE_SALE_BIDDER_TOO_MANY ≡ 19 }
    ensures bid { LARGEST_BID ≡ 2 ^ 48 - 1 }
    ensures bad_gates { BAD_GATES ≡ 3 }
    ensures bad_source { BAD_SALE_SOURCE ≡ 6 }
{}
