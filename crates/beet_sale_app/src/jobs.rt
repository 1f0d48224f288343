//! Doing the job that the words name.

ghost use Rattle.std.specs.Prelude.{Some, map, string_bytes};
ghost use Rattle.beet_errand.specs.Tasks.{DoesNamed, DoesTask};
ghost use Rattle.beet_pair_words.specs.Commands.{job_for};
ghost use Rattle.beet_sale_app.specs.Commands.{errand_for};
ghost use Rattle.beet_sale_app.specs.Doing.{task_of};
ghost use Rattle.beet_sale_app.specs.Jobs.{job_of};

use crate::commands::SaleCommand;
use beet_errand::{Reply, Stop};
use beet_job_sale::sale;
use beet_job_sale_pair::pair;
use beet_pair_words::{Command, read_command};
use beet_store::Shelf;
use std::alloc::Global;

/// Does the job of a command.
fn do_job<S: Shelf>(
    alloc: Global,
    shelf: &mut S,
    command: Command<'_, SaleCommand<'_>>,
) -> Result<Reply, Stop>
    ensures { DoesTask (task_of (Some (job_for errand_for command.entry))) (S.seen shelf.old) (S.seen shelf.new)
        result }
{
    match command {
        Command::Own(own) => sale(alloc, shelf, &own.files),
        Command::Pair(files, server) => pair(alloc, shelf, &files, server),
    }
}

/// Does the job that the words name, if they name one.
pub(crate) fn do_named<S: Shelf>(
    alloc: Global,
    shelf: &mut S,
    words: &[String],
) -> Option<Result<Reply, Stop>>
    ensures { DoesNamed (task_of (job_of (map string_bytes words.now))) (S.seen shelf.old) (S.seen shelf.new) result }
{
    match read_command(words) {
        Some(command) => Some(do_job(alloc, shelf, command)),
        None => None,
    }
}
