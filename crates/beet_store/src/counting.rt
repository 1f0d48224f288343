//! The count of faults of the host types.

ghost use Rattle.std.specs.Prelude.{◌≡◌, ◌≤◌, IsTrue};
ghost use Rattle.beet_store.specs.Causes.{Rose};
ghost use Rattle.beet_store.specs.Host.{count_after};

/// Counts a call that failed; at its last value the count stays.
pub(crate) fn count_call(faults: &mut u64, failed: bool)
    ensures count { faults.new ≡ count_after faults.old failed }
    ensures later { faults.old ≤ faults.new }
    ensures rose { IsTrue failed → Rose faults.old faults.new }
{
    if failed {
        *faults = faults.saturating_add(1);
    }
}
