//! The job `pair`.

ghost use Rattle.beet_errand.specs.Tasks.{DoesTask};
ghost use Rattle.beet_pair_words.specs.Pairs.{of_pair};
ghost use Rattle.beet_job_sale_pair.specs.Ending.{pair_task};

use crate::answering::answer_both;
use crate::reading::load_second;
use beet_errand::{Reply, Stop};
use beet_field::Point;
use beet_forms::beside;
use beet_pair_words::PairFiles;
use beet_sale_load::load_sale;
use beet_store::Shelf;
use std::alloc::Global;

/// Holds the first sale with the words that are read, and the second with words with which it looks the same to the
/// server. It answers the transcripts of the server, which are equal, and the words of the second sale.
pub fn pair<S: Shelf>(
    alloc: Global,
    shelf: &mut S,
    files: &PairFiles<'_>,
    server: Point,
) -> Result<Reply, Stop>
    ensures { DoesTask (of_pair pair_task files.now server) (S.seen shelf.old) (S.seen shelf.new) result }
{
    let first = load_sale(alloc, shelf, files.first, files.servers)?;
    let second = load_second(alloc, shelf, files.second, first.sale.gates());
    let (first, second) = beside(first, second)?;
    let reply = answer_both(alloc, server, files.out, &first, second);
    drop(first);
    reply
}
