//! Masks until one is accepted, and what each accepted one is compared for, whatever is compared.
#![tactic(auto)]

ghost use Rattle.std.specs.Prelude.{◌≡◌, ◌<◌, ◌^◌};
ghost use Rattle.beet_masking.specs.Masks.{masks_for};

/// Room for the numbers that each server draws for a mask and the comparison with it, whatever the gates.
pub const MASK_COEFFICIENTS: u32 = 512;

/// Masks that may be rejected in a run, beside those that are used.
pub const SPARE_MASKS: u32 = 2;

/// How many words a mask has, one of each of three servers.
pub const MASK_WORDS: u32 = 3;

/// Words that are kept of a tape beyond the numbers that are wanted of it, for words that are passed over.
pub const SPARE_WORDS: u32 = 8;

/// The most mask words that a run with so many comparisons wants of each server.
pub fn masks_for(comparisons: u32) -> u32
    requires { comparisons < 2 ^ 31 }
    ensures { result ≡ masks_for comparisons }
{
    comparisons + SPARE_MASKS
}
