//! What differs between an auction alone and a lot of a session.

ghost use Rattle.std.specs.Prelude.{◌≡◌, ◌≤◌, ◌^◌, ◌*◌, IfOk, string_bytes};
ghost use Rattle.beet_load.specs.Lots.{first_stream as stream_of, lot_text as text_of};

use std::alloc::{AllocError, Global};

/// Of the streams of a server's seed, the one that its numbers come from.
pub(crate) fn first_stream(lot: Option<u32>) -> u64
    ensures stream { result ≡ stream_of lot }
    ensures below { result ≤ 2 * 2 ^ 32 }
{
    match lot {
        None => 0,
        Some(lot) => 2 * lot as u64,
    }
}

/// How a line of too few words names the lot.
pub(crate) fn lot_text(alloc: Global, lot: Option<u32>) -> Result<String, AllocError>
    ensures { IfOk result (λ text. string_bytes text ≡ text_of lot) }
{
    match lot {
        None => Ok(String::new(alloc)),
        Some(lot) => {
            let number = lot as u64 + 1;
            format!(in alloc; "lot {number} ")
        }
    }
}
