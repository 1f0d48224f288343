//! The text of a sale that has ended.

ghost use Rattle.std.specs.Prelude.{◌≡◌, ◌<◌, ◌≤◌, IfOk, length, string_bytes};
ghost use Rattle.beet_job_sale.specs.SaleAnswers.{end_answer, status_of};
ghost use Rattle.beet_job_sale.specs.SaleTexts.{IsOfBidders, end_text, name_of, sale_text};

use beet_errand::{Reply, Status};
use beet_sale_file::SaleRow;
use beet_sale_plan::SaleEnd;
use std::alloc::{AllocError, Global};

/// The status of a sale that ended so.
fn status_after(end: &SaleEnd) -> Status
    ensures { result ≡ status_of end.now }
{
    match end {
        SaleEnd::Sold { .. } => Status::Done,
        SaleEnd::MasksSpent => Status::MasksSpent,
    }
}

/// The name of the bidder with this number, counted from 1.
fn bidder_name(rows: &[SaleRow], bidder: u32) -> &str
    requires some { 0 < bidder }
    requires few { bidder ≤ length rows.now }
    ensures { result.now ≡ name_of rows.now bidder }
{
    rows[bidder as usize - 1].name.as_str()
}

/// The lines of how a sale ended.
fn end_lines(alloc: Global, rows: &[SaleRow], end: &SaleEnd) -> Result<String, AllocError>
    requires { IsOfBidders rows.now end.now }
    ensures { IfOk result (λ text. string_bytes text ≡ end_text rows.now end.now) }
{
    let text = match end {
        SaleEnd::Sold { winner, price } => {
            let name = bidder_name(rows, *winner);
            format!(in alloc; "winner {name}\nprice {price}\n")?
        }
        SaleEnd::MasksSpent => String::from_str(alloc, "masks spent\n")?,
    };
    Ok(text)
}

/// The lines of how a sale ended, and that of the rounds.
fn sale_lines(
    alloc: Global,
    rows: &[SaleRow],
    end: &SaleEnd,
    rounds: u32,
) -> Result<Vec<u8>, AllocError>
    requires { IsOfBidders rows.now end.now }
    ensures { IfOk result (λ text. text.items ≡ sale_text rows.now end.now rounds) }
{
    let text = end_lines(alloc, rows, end)?;
    Ok(format!(in alloc; "{text}rounds {rounds}\n")?.into_bytes())
}

/// The reply that tells how the sale of these bidders ended, and after how many rounds: the name of the winner and the
/// price, or that the masks are spent.
pub fn sale_reply(
    alloc: Global,
    rows: &[SaleRow],
    end: SaleEnd,
    rounds: u32,
) -> Result<Reply, AllocError>
    requires { IsOfBidders rows.now end }
    ensures { IfOk result (λ reply. reply ≡ end_answer rows.now end rounds) }
{
    let text = sale_lines(alloc, rows, &end, rounds)?;
    Ok(Reply::of_text(alloc, status_after(&end), text))
}
