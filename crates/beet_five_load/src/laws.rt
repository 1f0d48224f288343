//! A law of the reason against trees: the contract of a function that does nothing.

ghost use Rattle.std.specs.Prelude.{◌≡◌};
ghost use Rattle.beet_five_load.specs.declared.setting.TheConstants.{GATES_ROW, TREE_GATES};

/// The row at which an auction with tree gates is refused, and the number of the reason.
pub fn trees_have_this_reason()
    ensures row { GATES_ROW ≡ 5 }
    ensures reason { TREE_GATES ≡ 7 }
{}
