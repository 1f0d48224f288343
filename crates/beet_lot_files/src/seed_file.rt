//! The reader of the servers file of a session: all servers have seeds.

ghost use Rattle.std.specs.Prelude.{◌≡◌, ◌≤◌, length, Ok};
ghost use Rattle.beet_forms.specs.Faults.{Answers};
ghost use Rattle.beet_forms.specs.declared.faults.TheConstants.{LONGEST_FILE};
ghost use Rattle.beet_lot_files.specs.SeedFiles.{is_seed, row_without_seed, seed_servers_of, seeded};

use beet_book::{ServerSource, Servers, read_servers};
use beet_forms::{ReadFault, beside};
use std::alloc::Global;

/// The reason against the first row of a servers file that has no seed, if all servers are to have one.
pub const NOT_SEED: u32 = 7;

/// Whether the words of a server come from a seed.
fn is_seed(source: &ServerSource) -> bool
    ensures { result ≡ is_seed source.now }
{
    matches!(source, ServerSource::Seed(_))
}

/// The first row of a servers file that has no seed, if there is one.
fn row_without_seed(servers: &Servers) -> Option<u32>
    ensures { result ≡ row_without_seed servers.now }
{
    let Servers::Three(sources) = servers else {
        return Some(2);
    };
    if !is_seed(&sources.one) {
        Some(2)
    } else if !is_seed(&sources.two) {
        Some(3)
    } else if !is_seed(&sources.three) {
        Some(4)
    } else {
        None
    }
}

/// Refuses servers that do not all have seeds.
fn check_seeds(servers: &Servers) -> Result<(), ReadFault>
    ensures { Answers (λ done. servers.now) (seeded (Ok servers.now)) result }
{
    match row_without_seed(servers) {
        Some(row) => Err(ReadFault::at_row(row, NOT_SEED)),
        None => Ok(()),
    }
}

/// Where the words of the servers of a session come from: a servers file, as `read_servers` reads it, with a seed for
/// each server. One in which nothing else is wrong is refused as [`NOT_SEED`] at the first row of a server that has no
/// seed, or at row 2 if that names a bundle.
pub fn read_seed_servers(alloc: Global, bytes: &[u8]) -> Result<Servers, ReadFault>
    requires { length bytes.now ≤ LONGEST_FILE }
    ensures { Answers (λ servers. servers) (seed_servers_of bytes.now) result }
{
    let servers = read_servers(alloc, bytes)?;
    let checked = check_seeds(&servers);
    let (servers, ()) = beside(servers, checked)?;
    Ok(servers)
}
