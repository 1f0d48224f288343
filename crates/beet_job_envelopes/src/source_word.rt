//! The word of the command line that names where a farmer's words come from.

ghost use Rattle.std.specs.Prelude.{◌≡◌, option_map};
ghost use Rattle.beet_job_envelopes.specs.SourceWords.{named_source, source_word, text_after};

use beet_forms::is_name;
use beet_words::read_seed;

/// Where a farmer's words come from, as a word of the command line names it.
#[derive(Clone, Copy)]
pub enum SourceWord<'a> {
    /// The generator with this seed.
    Seed([u8; 32]),
    /// The tape file of this name.
    Tape(&'a str),
}

/// What a text goes on with after it has begun so.
fn after<'a>(text: &'a str, front: &str) -> Option<&'a str>
    ensures { option_map (λ rest. rest.now) result ≡ text_after front.now text.now }
{
    text.strip_prefix(front)
}

/// The source that a word names: `seed:` and 64 hexadecimal digits of either case, or `tape:` and the name of a file.
/// It takes no memory.
pub fn read_source_word<'a>(word: &'a str) -> Option<SourceWord<'a>>
    ensures { option_map named_source result ≡ source_word word.now }
{
    if let Some(digits) = after(word, "seed:") {
        return match read_seed(digits.as_bytes()) {
            Some(seed) => Some(SourceWord::Seed(seed)),
            None => None,
        };
    }
    match after(word, "tape:") {
        Some(name) if is_name(name.as_bytes()) => Some(SourceWord::Tape(name)),
        _ => None,
    }
}
