//! Sales, as their files tell of them.

ghost use Rattle.std.specs.Prelude.{◌≡◌, IfOk, All, length};
ghost use Rattle.beet_sale_plan.specs.Outcome.{IsBid};
ghost use Rattle.beet_sale_plan.specs.Sale.{IsSaleSize};
ghost use Rattle.beet_sale_file.specs.Sales.{bids_of};

use crate::rows::{SaleBid, SaleRow};
use beet_forms::beside;
use beet_gates::Gates;
use std::alloc::{AllocError, Global};
use std::marker::Model;

/// A sealed sale: its kind of gates, and from 2 to 16 bidders.
#[derive(Debug, Drop)]
pub struct Sale {
    gates: Gates,
    rows: Vec<SaleRow>,
    /// The bids of the rows, one behind another.
    bids: Vec<SaleBid>,
}

impl Model for Sale {
    ghost use Rattle.beet_sale_file.specs.Sales.{Holds, SaleRecord};

    ghost Value = { SaleRecord };

    ghost view = { λ a. record { gates = a.gates; rows = a.rows.items } };

    ghost invariant = { λ a. Holds (record { gates = a.gates; rows = a.rows.items }) a.bids.items };
}

fn copy_bids(alloc: Global, rows: &[SaleRow]) -> Result<Vec<SaleBid>, AllocError>
    ensures { IfOk result (λ bids. bids.items ≡ bids_of rows.now) }
{
    let mut bids = Vec::new(alloc);
    for row in rows {
        bids.push(row.bid)?;
    }
    Ok(bids)
}

impl Sale {
    ghost use Rattle.beet_sale_file.specs.Sales.{IsSaleRecord};

    /// The sale with these gates and bidders.
    pub(crate) fn new(alloc: Global, gates: Gates, rows: Vec<SaleRow>) -> Result<Sale, AllocError>
        requires size { IsSaleSize (length rows.items) }
        requires bids { All (λ row. IsBid row.bid.bid) rows.items }
        ensures { IfOk result (λ sale. sale ≡ record { gates = gates; rows = rows.items }) }
    {
        let bids = copy_bids(alloc, &rows);
        let (rows, bids) = beside(rows, bids)?;
        Ok(Sale { gates, rows, bids })
    }

    /// The kind of gates of the sale's script.
    pub fn gates(&self) -> Gates
        ensures { result ≡ self.now.gates }
    {
        self.gates
    }

    /// The bidders, in their order.
    pub fn rows(&self) -> &[SaleRow]
        ensures value { result.now ≡ self.now.rows }
        ensures limits { IsSaleRecord self.now }
    {
        &self.rows
    }

    /// What each bidder bids, in their order.
    pub fn bids(&self) -> &[SaleBid]
        ensures value { result.now ≡ bids_of self.now.rows }
        ensures limits { IsSaleRecord self.now }
    {
        &self.bids
    }
}
