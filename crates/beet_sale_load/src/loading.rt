//! Reading a sale and the words with which it is run.

ghost use Rattle.std.specs.Prelude.{◌≡◌, ◌≤◌, IfOk, length};
ghost use Rattle.beet_errand.specs.Errands.{reads};
ghost use Rattle.beet_errand.specs.Fetches.{Reads};
ghost use Rattle.beet_sale_file.specs.SaleFiles.{sale_of};
ghost use Rattle.beet_sale_file.specs.declared.sale_file.TheConstants.{SALE_LIMIT};
ghost use Rattle.beet_sale_plan.specs.declared.TheConstants.{MOST_SALE_BIDDERS};
ghost use Rattle.beet_sale_load.specs.SaleLoading.{CanStart, sale_errand, words_errand};
ghost use Rattle.beet_sale_load.specs.SaleWants.{counts_of, wanted_of};

use crate::bidders::read_lists;
use beet_book::Servers;
use beet_errand::{Stop, fetch_file, judge};
use beet_forms::beside;
use beet_load::{Counts, Wanted, lists_in, read_sources, read_words, words_with};
use beet_sale_file::{SALE_LIMIT, Sale, SaleRow, read_sale};
use beet_sale_plan::{most_coefficients, most_masks};
use beet_store::Shelf;
use beet_words::Words;
use std::alloc::Global;
use std::marker::Model;

/// A sale that is read, with the words that are read for it: those of its servers, and those by which its bidders deal.
#[derive(Drop)]
pub struct SaleWithWords {
    pub sale: Sale,
    pub words: Words,
}

impl Model for SaleWithWords {
    ghost use Rattle.beet_sale_load.specs.SaleLoading.{CanStart, SaleRead};

    ghost Value = { SaleRead };

    ghost view = { λ a. record { sale = a.sale; words = a.words } };

    ghost invariant = { λ a. CanStart (record { sale = a.sale; words = a.words }) };
}

/// How many words the sale of these rows wants of each server and of each bidder.
pub fn sale_counts(rows: &[SaleRow]) -> Counts
    requires { length rows.now ≤ MOST_SALE_BIDDERS }
    ensures { result ≡ counts_of (length rows.now) }
{
    let bidders = rows.len() as u32;
    Counts::new(most_masks(bidders), most_coefficients(bidders), 1)
}

/// What the sale of these rows wants.
fn sale_wants(rows: &[SaleRow]) -> Wanted
    requires { length rows.now ≤ MOST_SALE_BIDDERS }
    ensures { result ≡ wanted_of rows.now }
{
    Wanted {
        counts: sale_counts(rows),
        lot: None,
    }
}

/// The sale of a sale file of at most 65,536 bytes. A file that cannot be fetched, is too long or breaks the format is
/// refused with its line.
pub fn read_sale_file<S: Shelf>(alloc: Global, shelf: &mut S, name: &str) -> Result<Sale, Stop>
    ensures { Reads (λ sale. sale) (S.seen shelf.old) (S.seen shelf.new) (reads name.now SALE_LIMIT sale_of) result }
{
    let bytes = fetch_file(alloc, shelf, name, SALE_LIMIT)?;
    judge(alloc, name, read_sale(alloc, bytes.as_slice()))
}

/// Reads the words of the servers of a sale, of these sources, and then those of its bidders.
fn load_words<S: Shelf>(
    alloc: Global,
    shelf: &mut S,
    sale: &Sale,
    sources: &Servers,
) -> Result<Words, Stop>
    ensures starts { IfOk result (λ words. CanStart (record { sale = sale.now; words = words })) }
    ensures reads { Reads (λ words. words) (S.seen shelf.old) (S.seen shelf.new)
        (words_errand sale.now.rows sources.now) result }
{
    let rows = sale.rows();
    let wanted = sale_wants(rows);
    let words = read_words(alloc, shelf, &wanted, sources, Some(rows.len()))?;
    let lists = read_lists(alloc, shelf, &wanted, lists_in(&words), rows);
    let (words, lists) = beside(words, lists)?;
    Ok(words_with(words.servers, lists))
}

/// Reads a sale, the words of its servers, and those of its bidders. Each file is judged before the next is fetched. A
/// bundle of another number of bidders is refused, and so is a server or a bidder that has too few words.
pub fn load_sale<S: Shelf>(
    alloc: Global,
    shelf: &mut S,
    sale: &str,
    servers: &str,
) -> Result<SaleWithWords, Stop>
    ensures { Reads (λ read. read) (S.seen shelf.old) (S.seen shelf.new) (sale_errand sale.now servers.now) result }
{
    let sale = read_sale_file(alloc, shelf, sale)?;
    let (sale, sources) = beside(sale, read_sources(alloc, shelf, servers))?;
    let words = load_words(alloc, shelf, &sale, &sources);
    drop(sources);
    let (sale, words) = beside(sale, words)?;
    Ok(SaleWithWords { sale, words })
}
