//! Names that stand in a file once.

ghost use Rattle.std.specs.Prelude.{◌≡◌, ◌||◌, ℕ, List, not, bytes_eq, IfOk, OnOk};
ghost use Rattle.std.specs.BTreeSet.{contains_text};

use std::alloc::{AllocError, Global};
use std::collections::BTreeSet;

/// Puts a name to those that were seen, and says whether it is new. Want of memory is the only error.
pub(crate) fn add_name(
    alloc: Global,
    seen: &mut BTreeSet<String>,
    name: &str,
) -> Result<bool, AllocError>
    ensures new { IfOk result (λ new. new ≡ not (contains_text seen.old name.now)) }
    ensures seen { OnOk result ((text : List ℕ) →
        contains_text seen.new text ≡ (bytes_eq name.now text || contains_text seen.old text)) }
{
    let name = String::from_str(alloc, name)?;
    let Ok(new) = seen.insert(name) else {
        return Err(AllocError);
    };
    Ok(new)
}
