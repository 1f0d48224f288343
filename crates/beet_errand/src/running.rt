//! The end of a run of a program: what the job that its words name answers goes out, or the usage line does.

ghost use Rattle.std.specs.Prelude.{◌≡◌, IfOk};
ghost use Rattle.beet_errand.specs.Fetches.{Refuses};
ghost use Rattle.beet_errand.specs.Tasks.{EndsRun, OrUsage};
ghost use Rattle.beet_errand.specs.Texts.{usage_text};

use crate::answer::{Refusal, Reply, Stop};
use crate::giving::give_answer;
use beet_store::Desk;
use std::alloc::{AllocError, Global};

/// The line for words that name no job.
fn usage_line(alloc: Global) -> Result<Vec<u8>, AllocError>
    ensures { IfOk result (λ line. line.items ≡ usage_text) }
{
    Ok(String::from_str(alloc, "usage: beet COMMAND WORDS\n")?.into_bytes())
}

/// Refuses words that name no job.
fn usage(alloc: Global) -> Stop
    ensures { Refuses Refusal.Usage usage_text result }
{
    Stop::of_line(Refusal::Usage, usage_line(alloc))
}

/// What the job that words name answers, or the usage line if they name none.
fn or_usage(alloc: Global, named: Option<Result<Reply, Stop>>) -> Result<Reply, Stop>
    ensures { OrUsage named result }
{
    match named {
        Some(result) => result,
        None => Err(usage(alloc)),
    }
}

/// Ends a run: gives what the job that words name answers to the desk, or the usage line if they name none.
/// Answers the exit status.
pub fn end_run<K: Desk>(alloc: Global, desk: &mut K, named: Option<Result<Reply, Stop>>) -> u8
    ensures { EndsRun named (K.seen desk.old) (K.seen desk.new) result }
{
    let result = or_usage(alloc, named);
    give_answer(alloc, desk, result).code()
}
