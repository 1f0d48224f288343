//! The commands of a program that has `pair`.

ghost use Rattle.std.specs.Prelude.{◌≡◌, map, option_map, string_bytes};
ghost use Rattle.beet_pair_words.specs.Commands.{job_for};
ghost use Rattle.beet_pair_words.specs.Jobs.{job_of};

use crate::pair::{PairFiles, read_pair};
use beet_command::{Line, read_line};
use beet_field::Point;

/// A command with its words: one of a program's own, or `pair`. Those that stand for files are names.
#[derive(Clone, Copy)]
pub enum Command<'a, A> {
    Own(A),
    Pair(PairFiles<'a>, Point),
}

/// The commands that a program has besides `pair`. Each has an errand.
pub trait OwnCommand<'a>: Drop {
    ghost use Rattle.std.specs.Prelude.{Option as Perhaps};
    ghost use Rattle.beet_command.specs.Lines.{Words, words_read};
    ghost use Rattle.beet_errand.specs.Errands.{Errand};

    /// The errand of the command that these words name, if they name one.
    ghost errand_in: { Words → Perhaps Errand };

    /// The errand of a command.
    ghost errand_of: { Self → Errand };

    /// The command of a line. A line of five words is never asked for.
    fn read(line: Line<'a>) -> Option<Self>
        ensures { option_map errand_of result ≡ errand_in (words_read line.entry) };
}

/// The command that the words name, if they name one.
pub fn read_command<'a, A: OwnCommand<'a>>(words: &'a [String]) -> Option<Command<'a, A>>
    ensures { option_map (job_for A.errand_of) result ≡ job_of A.errand_in (map string_bytes words.now) }
{
    match read_line(words) {
        Line::Five(name, first, second, servers, server, out) => {
            let (files, server) = read_pair(name, first, second, servers, server, out)?;
            Some(Command::Pair(files, server))
        }
        line => Some(Command::Own(A::read(line)?)),
    }
}
