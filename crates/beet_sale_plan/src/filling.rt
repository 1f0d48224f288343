//! Batches of a selection that are made in place.

ghost use Rattle.std.specs.Prelude.{◌≡◌, ◌≤◌, ◌+◌, length};
ghost use Rattle.beet_field.specs.declared.TheConstants.{MOST_NUMBERS};
ghost use Rattle.beet_gates.specs.declared.TheConstants.{MOST_LETS};
ghost use Rattle.beet_sale_plan.specs.Selections.{lets_before, multiplied};

use arrayvec::ArrayVec;
use beet_gates::{Act, Batch, Linear};

/// Puts lets before those of a batch. There must be room.
pub fn put_before(batch: &mut Batch, lets: &[Linear])
    requires { length lets.now + length batch.old.lets.items ≤ MOST_LETS }
    ensures { batch.new ≡ lets_before lets.now batch.old }
{
    let mut all = ArrayVec::new();
    let Ok(()) = all.try_extend_from_slice(lets) else {
        unreachable!()
    };
    let Ok(()) = all.try_extend_from_slice(batch.lets.as_slice()) else {
        unreachable!()
    };
    batch.lets = all;
}

/// Appends lets to those of a batch, and multiplies pairs in place of its act. There must be room.
pub fn set_products(batch: &mut Batch, lets: &[Linear], pairs: &[(u32, u32)])
    requires lets { length batch.old.lets.items + length lets.now ≤ MOST_LETS }
    requires pairs { length pairs.now ≤ MOST_NUMBERS }
    ensures { batch.new ≡ multiplied lets.now pairs.now batch.old }
{
    let Ok(()) = batch.lets.try_extend_from_slice(lets) else {
        unreachable!()
    };
    let Ok(pairs) = ArrayVec::try_from(pairs) else {
        unreachable!()
    };
    batch.act = Act::Mul(pairs);
}
