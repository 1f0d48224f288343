//! The reply of a rehearsal.

ghost use Rattle.std.specs.Prelude.{◌≡◌, ◌++◌, IfOk, OnOk, string_bytes};
ghost use Rattle.beet_job_rehearse.specs.Rehearse.{is_spent as is_spent_at, rehearsal_answer, servers_answer};
ghost use Rattle.beet_job_rehearse.specs.Rehearse.{servers_status};
ghost use Rattle.beet_job_rehearse.specs.StandingTexts.{server_text, servers_text, standing_text, undelivered_line};

use crate::standing::{Rehearsal, Standing};
use beet_bids::Grid;
use beet_errand::{Reply, Status};
use beet_field::{Point, Trio};
use beet_plan::Finish;
use beet_run::finish_as_text;
use std::alloc::{AllocError, Global};

/// How a server stands, in words.
fn standing_as_text(alloc: Global, grid: &Grid, standing: &Standing) -> Result<String, AllocError>
    ensures { IfOk result (λ text. string_bytes text ≡ standing_text grid.now standing.now) }
{
    let text = match standing {
        Standing::Waiting(round) => format!(in alloc; "round {round} waiting")?,
        Standing::Ended(finish) => finish_as_text(alloc, grid, finish, " ")?,
    };
    Ok(text)
}

fn server_line(
    alloc: Global,
    grid: &Grid,
    at: Point,
    standing: &Standing,
) -> Result<String, AllocError>
    ensures { IfOk result (λ line. string_bytes line ≡ server_text grid.now at standing.now) }
{
    let server = at.number();
    let text = standing_as_text(alloc, grid, standing)?;
    let line = format!(in alloc; "server {server} {text}\n")?;
    Ok(line)
}

fn server_lines(alloc: Global, grid: &Grid, servers: &Trio<Standing>) -> Result<Vec<u8>, AllocError>
    ensures { IfOk result (λ text. text.items ≡ servers_text grid.now servers.now) }
{
    let one = server_line(alloc, grid, Point::One, &servers.one)?;
    let two = server_line(alloc, grid, Point::Two, &servers.two)?;
    let three = server_line(alloc, grid, Point::Three, &servers.three)?;
    Ok(format!(in alloc; "{one}{two}{three}")?.into_bytes())
}

/// Appends the line for so many messages that are not delivered.
pub fn push_undelivered(
    alloc: Global,
    text: &mut Vec<u8>,
    undelivered: u32,
) -> Result<(), AllocError>
    ensures { OnOk result (text.new.items ≡ text.old.items ++ undelivered_line undelivered) }
{
    let line = format!(in alloc; "undelivered {undelivered}\n")?.into_bytes();
    text.extend_from_slice(line.as_slice())
}

/// Whether a server has ended with the third rejected mask.
fn is_spent(standing: &Standing) -> bool
    ensures { result ≡ is_spent_at standing.now }
{
    matches!(standing, Standing::Ended(Finish::MasksSpent))
}

fn status_of(servers: &Trio<Standing>) -> Status
    ensures { result ≡ servers_status servers.now }
{
    if is_spent(&servers.one) || is_spent(&servers.two) || is_spent(&servers.three) {
        Status::MasksSpent
    } else {
        Status::Done
    }
}

/// The reply that tells how three servers stand, and of no message.
pub fn servers_reply(
    alloc: Global,
    grid: &Grid,
    servers: &Trio<Standing>,
) -> Result<Reply, AllocError>
    ensures { IfOk result (λ reply. reply ≡ servers_answer grid.now servers.now) }
{
    let text = server_lines(alloc, grid, servers)?;
    Ok(Reply::of_text(alloc, status_of(servers), text))
}

/// The reply that tells how the servers stand.
pub(crate) fn rehearsal_reply(
    alloc: Global,
    grid: &Grid,
    rehearsal: &Rehearsal,
) -> Result<Reply, AllocError>
    ensures { IfOk result (λ reply. reply ≡ rehearsal_answer grid.now rehearsal.now) }
{
    let mut reply = servers_reply(alloc, grid, &rehearsal.servers)?;
    push_undelivered(alloc, &mut reply.text, rehearsal.undelivered)?;
    Ok(reply)
}
