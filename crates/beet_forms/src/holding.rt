//! What is held while more is read.

ghost use Rattle.std.specs.Prelude.{◌≡◌, Err, MatchResult, Ok};

/// What is held, and what is read after it. If that cannot be read, what is held is dropped here, so that no reader
/// has to be proved to drop it part by part.
pub fn beside<A: Drop, B: Drop, E: Drop>(held: A, read: Result<B, E>) -> Result<(A, B), E>
    ensures { MatchResult result (λ both. (both.0 ≡ held) × (read ≡ Ok both.1)) (λ error. read ≡ Err error) }
{
    Ok((held, read?))
}
