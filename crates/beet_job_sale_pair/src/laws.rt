//! Laws of the differences that are told, and of the reason against other gates: the contracts of functions that do
//! nothing.

ghost use Rattle.std.specs.Prelude.{◌≡◌, Some, None};
ghost use Rattle.beet_field.specs.declared.point.Point.{Point};
ghost use Rattle.std.specs.Prelude.{List};
ghost use Rattle.beet_sale_file.specs.declared.rows.SaleBid.{SaleBid};
ghost use Rattle.beet_sale_map.specs.Bids.{Agree};
ghost use Rattle.beet_sale_map.specs.Disagreement.{Refuses};
ghost use Rattle.beet_sale_map.specs.declared.agreeing.SaleFault.{SaleFault};
ghost use Rattle.beet_job_sale_pair.specs.Differences.{difference_between};
ghost use Rattle.beet_job_sale_pair.specs.declared.reading.TheConstants.{OTHER_GATES};

/// There is no difference to tell between sales that agree for a server. Of others the one that is told is the first
/// thing that tells them apart.
pub fn differences_of_sales_are_told()
    ensures none { (s : Point) (first second : List SaleBid) → Agree s first second →
        difference_between s first second ≡ None }
    ensures told { (s : Point) (first second : List SaleBid) (fault : SaleFault) → Refuses s first second fault →
        difference_between s first second ≡ Some fault }
{}

/// The number of the reason against a second sale that has other gates than the first.
pub fn other_gates_have_this_reason()
    ensures { OTHER_GATES ≡ 7 }
{}
