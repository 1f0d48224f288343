//! The words of a command.

ghost use Rattle.std.specs.Prelude.{◌≡◌};
ghost use Rattle.beet_forms.specs.Names.{is_name_of};

use beet_forms::is_name;
use std::alloc::Global;
use std::rt::Env;
use std::{env, io};

/// The words after the name of the program, or `None` if memory ran out. A word that is not UTF-8 names no job, and
/// neither do no words.
pub fn words_of<R: Env + AllocGlobal>(rt: &R, alloc: Global) -> Option<Vec<String>> {
    match env::args(rt) {
        Ok(args) => args.skip(1).collect::<Vec<String>>(alloc).ok(),
        Err(error) if error.kind() == io::ErrorKind::OutOfMemory => None,
        Err(_) => Some(Vec::new(alloc)),
    }
}

/// Whether a word is the name of a file.
pub fn is_file(word: &str) -> bool
    ensures { result ≡ is_name_of word.now }
{
    is_name(word.as_bytes())
}
