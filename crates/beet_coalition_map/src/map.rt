//! The map between two worlds.

ghost use Rattle.std.specs.Prelude.{◌≡◌, ◌≤◌, ◌<◌, ◌*◌, ℕ, IfOk, length};
ghost use Rattle.beet_words.specs.Words.{accepted};
ghost use Rattle.beet_linear_sharing.specs.Schemes.{five_servers};
ghost use Rattle.beet_linear_sharing.specs.Sharings.{IsAmong};
ghost use Rattle.beet_coalition.specs.Lists.{at_server};
ghost use Rattle.beet_coalition.specs.Words.{AreWords};
ghost use Rattle.beet_coalition_map.specs.Begins.{AreMapped};

use crate::begins::FiveSecrets;
use crate::lists::{FiveLists, all_back};
use crate::walk::map_numbers;
use crate::watchers::Watchers;
use beet_gates::Script;
use beet_words::WordList;
use std::alloc::{AllocError, Global};

/// The coefficient words of the second world that show the two servers what these words show them in the first. The two
/// must not be able to tell the worlds apart before any number is drawn; of other worlds nothing is said of the words.
///
/// The words of the two servers stay as they are, and so do words that are all ones, and words past those that the run
/// draws. The only error is want of memory: it is taken before the first round and after the last.
pub fn map_coefficients<S: Script<5>>(
    alloc: Global,
    two: Watchers,
    script: &S,
    first: &FiveSecrets,
    second: &FiveSecrets,
    coefficients: &[WordList],
) -> Result<Vec<WordList>, AllocError>
    requires five { length coefficients.now ≡ 5 }
    requires numbers { (j : ℕ) → IsAmong five_servers.servers j →
        2 * S.secrets_of script.now ≤ length (accepted (at_server coefficients.now j)) }
    ensures five { IfOk result (λ words. length words.items ≡ 5) }
    ensures words { IfOk result (λ words. AreWords five_servers (at_server words.items)) }
    ensures mapped { IfOk result (λ words. AreMapped two.a two.b (S.batch_of script.now) first.now second.now
        coefficients.now words.items) }
{
    let drawn = FiveLists::drawn(alloc, coefficients)?;
    let numbers = map_numbers(alloc, two, script, first, second, drawn)?;
    let words = all_back(alloc, coefficients, &numbers)?;
    Ok(words)
}
