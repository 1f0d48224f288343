//! Reading the words of a command.

ghost use Rattle.std.specs.Prelude.{◌≡◌, option_map};
ghost use Rattle.beet_command.specs.Lines.{words_read};
ghost use Rattle.beet_sale_app.specs.Commands.{errand_for};
ghost use Rattle.beet_sale_app.specs.Jobs.{errand_in};

use beet_command::{Line, is_file};
use beet_job_sale::SaleFiles;
use beet_pair_words::OwnCommand;

/// The command `sale`, which is the only one besides `pair`, with its words. Those that stand for files are names.
#[derive(Clone, Copy)]
pub(crate) struct SaleCommand<'a> {
    pub(crate) files: SaleFiles<'a>,
}

impl<'a> OwnCommand<'a> for SaleCommand<'a> {
    ghost errand_in = { errand_in };

    ghost errand_of = { errand_for };

    fn read(line: Line<'a>) -> Option<SaleCommand<'a>> {
        match line {
            Line::Two(name, sale, servers) if name == "sale" && is_file(sale) && is_file(servers) =>
                Some(SaleCommand {
                    files: SaleFiles { sale, servers },
                }),
            _ => None,
        }
    }
}
