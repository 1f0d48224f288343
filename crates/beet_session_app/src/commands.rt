//! Reading the words of a command.

ghost use Rattle.std.specs.Prelude.{◌≡◌, option_map};
ghost use Rattle.beet_command.specs.Lines.{words_read};
ghost use Rattle.beet_session_app.specs.Commands.{errand_for};
ghost use Rattle.beet_session_app.specs.Jobs.{errand_in};

use beet_command::{Line, is_file};
use beet_lot_load::SessionFiles;
use beet_pair_words::OwnCommand;

/// A command besides `pair`, with its words. Those that stand for files are names.
#[derive(Clone, Copy)]
pub(crate) enum LotsCommand<'a> {
    Session(SessionFiles<'a>),
    Replay(SessionFiles<'a>, &'a str),
}

impl<'a> OwnCommand<'a> for LotsCommand<'a> {
    ghost errand_in = { errand_in };

    ghost errand_of = { errand_for };

    fn read(line: Line<'a>) -> Option<LotsCommand<'a>> {
        match line {
            Line::Two(name, session, servers)
                if name == "session" && is_file(session) && is_file(servers) => {
                Some(LotsCommand::Session(SessionFiles { session, servers }))
            }
            Line::Three(name, session, servers, schedule)
                if name == "replay" && is_file(session) && is_file(servers) && is_file(schedule) =>
                Some(LotsCommand::Replay(SessionFiles { session, servers }, schedule)),
            _ => None,
        }
    }
}
