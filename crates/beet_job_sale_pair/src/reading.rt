//! Reading the second sale.

ghost use Rattle.std.specs.Prelude.{◌≡◌, ◌≤◌, IfOk, Ok, length};
ghost use Rattle.beet_forms.specs.Faults.{Answers};
ghost use Rattle.beet_forms.specs.declared.faults.TheConstants.{LONGEST_FILE};
ghost use Rattle.beet_errand.specs.Fetches.{Reads};
ghost use Rattle.beet_sale_file.specs.SaleFiles.{sale_of};
ghost use Rattle.beet_job_sale_pair.specs.Reading.{second_errand, with_gates};

use beet_errand::{Stop, fetch_file, judge};
use beet_forms::{ReadFault, beside};
use beet_gates::Gates;
use beet_sale_file::{SALE_LIMIT, Sale, read_sale};
use beet_store::Shelf;
use std::alloc::Global;

/// The reason against row 2 of a second sale that has other gates than the first.
pub const OTHER_GATES: u32 = 7;

/// The fault of a sale that has other gates than these.
fn check_gates(sale: &Sale, gates: Gates) -> Result<(), ReadFault>
    ensures checked { Answers (λ done. sale.now) (with_gates gates (Ok sale.now)) result }
    ensures same { IfOk result (λ done. sale.now.gates ≡ gates) }
{
    if sale.gates() == gates {
        Ok(())
    } else {
        Err(ReadFault::at_row(2, OTHER_GATES))
    }
}

/// The sale of a file, which is to have these gates.
fn sale_with_gates(alloc: Global, bytes: &[u8], gates: Gates) -> Result<Sale, ReadFault>
    requires { length bytes.now ≤ LONGEST_FILE }
    ensures reads { Answers (λ sale. sale) (with_gates gates (sale_of bytes.now)) result }
    ensures same { IfOk result (λ sale. sale.gates ≡ gates) }
{
    let sale = read_sale(alloc, bytes)?;
    let checked = check_gates(&sale, gates);
    let (sale, ()) = beside(sale, checked)?;
    Ok(sale)
}

/// Reads the second sale. One with other gates than these is refused at row 2 for the reason 7.
pub(crate) fn load_second<S: Shelf>(
    alloc: Global,
    shelf: &mut S,
    name: &str,
    gates: Gates,
) -> Result<Sale, Stop>
    ensures same { IfOk result (λ sale. sale.gates ≡ gates) }
    ensures reads { Reads (λ sale. sale) (S.seen shelf.old) (S.seen shelf.new)
        (second_errand name.now gates) result }
{
    let bytes = fetch_file(alloc, shelf, name, SALE_LIMIT)?;
    judge(alloc, name, sale_with_gates(alloc, bytes.as_slice(), gates))
}
