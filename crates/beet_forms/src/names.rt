//! Names.

ghost use Rattle.std.specs.Prelude.{◌≡◌, if◌then◌else◌, true, false, Some, None, IfOk, MatchOption};
ghost use Rattle.std.specs.List.{list_all};
ghost use Rattle.std.specs.Str.{is_utf8};
ghost use Rattle.beet_forms.specs.Names.{is_name_of, is_plain};

use std::alloc::{AllocError, Global};
use std::marker::Model;
use std::str;

/// The most bytes of a name.
pub const LONGEST_NAME: usize = 200;

/// Whether no byte is a control byte.
fn are_plain(bytes: &[u8]) -> bool
    ensures { result ≡ list_all is_plain bytes.now }
{
    bytes.iter().all(|byte| *byte >= 32 && *byte != 127)
}

/// The bytes as text, if they are UTF-8.
fn as_text(bytes: &[u8]) -> Option<&str>
    ensures { MatchOption result (is_utf8 bytes.now ≡ false)
        (λ text. (text.now ≡ bytes.now) × (is_utf8 bytes.now ≡ true)) }
{
    match str::from_utf8(bytes) {
        Ok(text) => Some(text),
        Err(_) => None,
    }
}

/// The bytes as text, if they are a name.
fn as_name(bytes: &[u8]) -> Option<&str>
    ensures { MatchOption result (is_name_of bytes.now ≡ false)
        (λ text. (text.now ≡ bytes.now) × (is_name_of bytes.now ≡ true)) }
{
    if bytes.is_empty() || bytes.len() > LONGEST_NAME || !are_plain(bytes) {
        return None;
    }
    as_text(bytes)
}

/// Whether the bytes are a name: 1 to 200 bytes of UTF-8, none of them below 0x20 or equal to 0x7F.
pub fn is_name(bytes: &[u8]) -> bool
    ensures { result ≡ is_name_of bytes.now }
{
    as_name(bytes).is_some()
}

/// A name: 1 to 200 bytes of UTF-8 text without control bytes.
#[derive(Debug, Drop)]
pub struct Name {
    text: String,
}

impl Model for Name {
    ghost use Rattle.std.specs.Prelude.{◌≡◌, ℕ, List, true, string_bytes};
    ghost use Rattle.beet_forms.specs.Names.{is_name_of};

    ghost Value = { List ℕ };

    ghost view = { λ a. string_bytes a.text };

    ghost invariant = { λ a. is_name_of (string_bytes a.text) ≡ true };
}

impl Name {
    /// The name of these bytes, or none if they are no name. Want of memory is the only error.
    pub fn of(alloc: Global, bytes: &[u8]) -> Result<Option<Name>, AllocError>
        ensures { IfOk result (λ name. name ≡ (if is_name_of bytes.now then Some bytes.now else None)) }
    {
        match as_name(bytes) {
            Some(text) => {
                let text = String::from_str(alloc, text)?;
                Ok(Some(Name { text }))
            }
            None => Ok(None),
        }
    }

    /// The name as text.
    pub fn as_str(&self) -> &str
        ensures { result.now ≡ self.now }
    {
        self.text.as_str()
    }
}
