//! The reply of a watched auction.

ghost use Rattle.std.specs.Prelude.{◌≡◌, IfOk, string_bytes};
ghost use Rattle.beet_run.specs.Outcomes.{outcome_answer};
ghost use Rattle.beet_job_watch.specs.Watch.{count_text, with_counts};

use crate::running::WatchedRun;
use beet_bids::Grid;
use beet_desk::NoteCount;
use beet_errand::Reply;
use beet_field::Point;
use beet_run::outcome_reply;
use std::alloc::{AllocError, Global};

/// The line of what the desk counted of a server.
fn count_line(alloc: Global, at: Point, count: NoteCount) -> Result<String, AllocError>
    ensures { IfOk result (λ line. string_bytes line ≡ count_text at count) }
{
    let server = at.number();
    let NoteCount { notes, opened } = count;
    let line = format!(in alloc; "server {server} notes {notes} opened {opened}\n")?;
    Ok(line)
}

/// The reply that tells how a watched auction has ended, after how many rounds, and what was counted of each server.
pub fn watched_reply(alloc: Global, grid: &Grid, run: &WatchedRun) -> Result<Reply, AllocError>
    ensures { IfOk result (λ reply. reply
        ≡ with_counts run.now.counts (outcome_answer grid.now run.now.finish run.now.rounds)) }
{
    let one = count_line(alloc, Point::One, run.counts.one)?;
    let two = count_line(alloc, Point::Two, run.counts.two)?;
    let three = count_line(alloc, Point::Three, run.counts.three)?;
    let lines = format!(in alloc; "{one}{two}{three}")?;
    let outcome = outcome_reply(alloc, grid, run.finish, run.rounds)?;
    let mut text = outcome.text;
    text.extend_from_slice(lines.as_bytes())?;
    Ok(Reply::of_text(alloc, outcome.status, text))
}
