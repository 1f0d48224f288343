//! The refusal of two sales.

ghost use Rattle.std.specs.Prelude.{◌≡◌, IfOk};
ghost use Rattle.beet_job_sale_pair.specs.Differences.{refused_text};
ghost use Rattle.beet_job_sale_pair.specs.Ending.{TellsRefusal};

use beet_differences::{refuse_bidder, refuse_worlds};
use beet_errand::Stop;
use beet_sale_map::{SaleFault, SaleResult};
use std::alloc::{AllocError, Global};

/// The line for two results.
fn results_line(alloc: Global, one: SaleResult, other: SaleResult) -> Result<Vec<u8>, AllocError>
    ensures { IfOk result (λ line. line.items ≡ refused_text (SaleFault.SalesDiffer one other)) }
{
    let SaleResult { winner, price } = one;
    let line = format!(in alloc;
        "sales refused {winner}/{price} {0}/{1}\n",
        other.winner, other.price
    )?;
    Ok(line.into_bytes())
}

/// Refuses two sales whose words are not mapped, by the line of the fault.
pub(crate) fn refuse_sales(alloc: Global, fault: SaleFault) -> Stop
    ensures { TellsRefusal fault result }
{
    match fault {
        SaleFault::ShapeDiffers(bidder) => refuse_bidder(alloc, "sales refused", "shape", bidder),
        SaleFault::OwnBidsDiffer(bidder) => refuse_bidder(
            alloc,
            "sales refused",
            "own bids",
            bidder,
        ),
        SaleFault::SalesDiffer(one, other) => refuse_worlds(results_line(alloc, one, other)),
        SaleFault::OutOfMemory => Stop::OutOfMemory,
    }
}
