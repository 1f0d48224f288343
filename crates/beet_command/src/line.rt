//! The words of a command, by their count.

ghost use Rattle.std.specs.Prelude.{[], ◌≡◌, ◌<◌, get_or, length, map, string_bytes};
ghost use Rattle.beet_command.specs.Lines.{words_in, words_read};

/// A command and the words after it, of which there are as many as the name says.
#[derive(Clone, Copy)]
pub enum Line<'a> {
    Two(&'a str, &'a str, &'a str),
    Three(&'a str, &'a str, &'a str, &'a str),
    Four(&'a str, &'a str, &'a str, &'a str, &'a str),
    Five(&'a str, &'a str, &'a str, &'a str, &'a str, &'a str),
    Six(&'a str, &'a str, &'a str, &'a str, &'a str, &'a str, &'a str),
    Seven(&'a str, &'a str, &'a str, &'a str, &'a str, &'a str, &'a str, &'a str),
    /// Fewer words than two, or more than seven, or no command.
    Other,
}

fn at(words: &[String], place: usize) -> &str
    requires { place < length words.now }
    ensures { result.now ≡ get_or (map string_bytes words.now) place [] }
{
    words[place].as_str()
}

/// The command and its words, by their count.
pub fn read_line(words: &[String]) -> Line<'_>
    ensures { words_read result ≡ words_in (map string_bytes words.now) }
{
    match words.len() {
        3 => Line::Two(at(words, 0), at(words, 1), at(words, 2)),
        4 => Line::Three(at(words, 0), at(words, 1), at(words, 2), at(words, 3)),
        5 => Line::Four(
            at(words, 0),
            at(words, 1),
            at(words, 2),
            at(words, 3),
            at(words, 4),
        ),
        6 => Line::Five(
            at(words, 0),
            at(words, 1),
            at(words, 2),
            at(words, 3),
            at(words, 4),
            at(words, 5),
        ),
        7 => Line::Six(
            at(words, 0),
            at(words, 1),
            at(words, 2),
            at(words, 3),
            at(words, 4),
            at(words, 5),
            at(words, 6),
        ),
        8 => Line::Seven(
            at(words, 0),
            at(words, 1),
            at(words, 2),
            at(words, 3),
            at(words, 4),
            at(words, 5),
            at(words, 6),
            at(words, 7),
        ),
        _ => Line::Other,
    }
}
