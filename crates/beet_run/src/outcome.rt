//! The text of a run that has ended.

ghost use Rattle.std.specs.Prelude.{◌≡◌, IfOk, string_bytes};
ghost use Rattle.beet_run.specs.Outcomes.{outcome_answer, status_of};
ghost use Rattle.beet_run.specs.OutcomeTexts.{finish_text, opened_text, outcome_text, outcome_word as word_of};

use beet_bids::{Grid, Outcome};
use beet_errand::{Reply, Status};
use beet_field::Fe;
use beet_plan::Finish;
use std::alloc::{AllocError, Global};

/// The status of a run that ended so.
fn status_after(finish: &Finish) -> Status
    ensures { result ≡ status_of finish.now }
{
    match finish {
        Finish::Price { .. } | Finish::NoPrice => Status::Done,
        Finish::MasksSpent => Status::MasksSpent,
    }
}

/// The text of a number that may be opened: its name and digits behind a text, or nothing.
fn opened_as_text(
    alloc: Global,
    before: &str,
    name: &str,
    number: Option<u64>,
) -> Result<String, AllocError>
    ensures { IfOk result (λ text. string_bytes text ≡ opened_text before.now name.now number) }
{
    let text = match number {
        None => String::new(alloc),
        Some(number) => format!(in alloc; "{before}{name}{number}")?,
    };
    Ok(text)
}

/// An outcome as a refusal tells it: its price, and behind slashes what it holds of the volume and the supply, or
/// `none`. Want of memory is the only error.
pub fn outcome_word(alloc: Global, outcome: Outcome) -> Result<String, AllocError>
    ensures { IfOk result (λ word. string_bytes word ≡ word_of outcome) }
{
    let Outcome::Price {
        price,
        volume,
        supply,
        ..
    } = outcome
    else {
        return String::from_str(alloc, "none");
    };
    let volume = opened_as_text(alloc, "/", "", volume)?;
    let supply = opened_as_text(alloc, "/", "", supply)?;
    let word = format!(in alloc; "{price}{volume}{supply}")?;
    Ok(word)
}

/// The text of a price, of none, or of spent masks; behind a price, the numbers that are opened there, each after
/// `between`.
pub fn finish_as_text(
    alloc: Global,
    grid: &Grid,
    finish: &Finish,
    between: &str,
) -> Result<String, AllocError>
    ensures { IfOk result (λ text. string_bytes text ≡ finish_text between.now grid.now finish.now) }
{
    let text = match finish {
        Finish::Price {
            place,
            volume,
            supply,
        } => {
            let price = grid.base() + *place as u64 * grid.tick();
            let volume = opened_as_text(alloc, between, "volume ", volume.map(Fe::value))?;
            let supply = opened_as_text(alloc, between, "supply ", supply.map(Fe::value))?;
            format!(in alloc; "price {price}{volume}{supply}")?
        }
        Finish::NoPrice => String::from_str(alloc, "no price")?,
        Finish::MasksSpent => String::from_str(alloc, "masks spent")?,
    };
    Ok(text)
}

/// The lines of how a run ended, and that of the rounds.
fn outcome_lines(
    alloc: Global,
    grid: &Grid,
    finish: &Finish,
    rounds: u32,
) -> Result<Vec<u8>, AllocError>
    ensures { IfOk result (λ text. text.items ≡ outcome_text grid.now finish.now rounds) }
{
    let text = finish_as_text(alloc, grid, finish, "\n")?;
    Ok(format!(in alloc; "{text}\nrounds {rounds}\n")?.into_bytes())
}

/// The reply that tells how a run ended, and after how many rounds.
pub fn outcome_reply(
    alloc: Global,
    grid: &Grid,
    finish: Finish,
    rounds: u32,
) -> Result<Reply, AllocError>
    ensures { IfOk result (λ reply. reply ≡ outcome_answer grid.now finish rounds) }
{
    let text = outcome_lines(alloc, grid, &finish, rounds)?;
    Ok(Reply::of_text(alloc, status_after(&finish), text))
}
