//! Reading the words of the servers.

ghost use Rattle.std.specs.Prelude.{◌≡◌, ◌≤◌, IfOk, length, take, Ok, Option, Some, None, option_map, codes};
ghost use Rattle.beet_forms.specs.Faults.{Answers};
ghost use Rattle.beet_words.specs.Bundles.{bundle_of};
ghost use Rattle.beet_book.specs.ServerFiles.{servers_of};
ghost use Rattle.beet_errand.specs.Errands.{reads};
ghost use Rattle.beet_errand.specs.Fetches.{Reads, Refuses, Tests};
ghost use Rattle.beet_load.specs.Servers.{seeded, source_errand, enough_of, enough_of_all, HasEnough, HaveEnough};
ghost use Rattle.beet_load.specs.Servers.{IsCut, AreCut, server_errand, three_errand, counted, cut_server, cut_servers};
ghost use Rattle.beet_load.specs.Servers.{all_words_errand};
ghost use Rattle.beet_load.specs.WordTexts.{server_short_text};
ghost use Rattle.beet_forms.specs.declared.faults.TheConstants.{LONGEST_FILE};
ghost use Rattle.beet_book.specs.declared.server_file.TheConstants.{SERVERS_LIMIT};

use crate::farmers::{front, read_tape_file};
use crate::lots::{first_stream, lot_text};
use crate::wanted::{Counts, Wanted};
use beet_book::{SERVERS_LIMIT, ServerSource, Servers, read_servers};
use beet_errand::{Refusal, Stop, fetch_file, judge};
use beet_field::Trio;
use beet_forms::{LONGEST_FILE, Name, ReadFault, beside};
use beet_store::Shelf;
use beet_words::{Tape, WRONG_COUNT, WordList, Words, read_bundle};
use std::alloc::{AllocError, Global};
use std::marker::Model;

/// The two tapes of a server, at their first words.
#[derive(Drop)]
pub struct ServerWords {
    pub masks: Tape,
    pub coefficients: Tape,
}

impl Model for ServerWords {
    ghost use Rattle.std.specs.Prelude.{◌≡◌};
    ghost use Rattle.beet_load.specs.Servers.{ServerWords as Shown};

    ghost Value = { Shown };

    ghost view = { λ a. record { masks = a.masks.words; coefficients = a.coefficients.words } };

    ghost invariant = { λ a. (a.masks.passed ≡ 0) × (a.coefficients.passed ≡ 0) };
}

impl ServerWords {
    /// The words for masks and those for numbers, given away.
    pub(crate) fn into_lists(self) -> (WordList, WordList)
        ensures masks { result.0 ≡ self.masks }
        ensures coefficients { result.1 ≡ self.coefficients }
    {
        (self.masks.into_words(), self.coefficients.into_words())
    }
}

/// The words of the servers, and those of the bidders if a bundle has them.
#[derive(Drop)]
pub struct AllWords {
    pub servers: Trio<ServerWords>,
    pub bidders: Option<Vec<WordList>>,
}

impl Model for AllWords {
    ghost use Rattle.std.specs.Prelude.{option_map};
    ghost use Rattle.beet_load.specs.Servers.{AllWords as Shown};

    ghost Value = { Shown };

    ghost view = { λ a. record {
      servers = a.servers;
      bidders = option_map (λ lists. lists.items) a.bidders;
    } };
}

impl AllWords {
    /// The words of the servers, given away. Those of the bidders are let go.
    pub(crate) fn into_servers(self) -> Trio<ServerWords>
        ensures { result ≡ self.servers }
    {
        self.servers
    }
}

pub fn seed_words(
    alloc: Global,
    wanted: &Wanted,
    seed: &[u8; 32],
) -> Result<ServerWords, AllocError>
    ensures { IfOk result (λ words. words ≡ seeded wanted.now seed.now) }
{
    let counts = wanted.counts;
    let stream = first_stream(wanted.lot);
    Ok(ServerWords {
        masks: Tape::of_seed(alloc, seed, stream + 1, counts.masks())?,
        coefficients: Tape::of_seed(alloc, seed, stream, counts.coefficients_kept())?,
    })
}

/// The words of two tape files.
fn read_tapes<S: Shelf>(
    alloc: Global,
    shelf: &mut S,
    wanted: &Wanted,
    coefficients: &str,
    masks: &str,
) -> Result<ServerWords, Stop>
    ensures cut { IfOk result (IsCut wanted.now.counts) }
    ensures reads { Reads (λ words. words) (S.seen shelf.old) (S.seen shelf.new)
        (source_errand wanted.now (ServerSource.Tapes coefficients.now masks.now)) result }
{
    let counts = wanted.counts;
    let coefficients = read_tape_file(alloc, shelf, coefficients, counts.coefficients_kept())?;
    let masks = read_tape_file(alloc, shelf, masks, counts.masks())?;
    Ok(ServerWords {
        masks,
        coefficients,
    })
}

/// The words of a source.
fn read_source<S: Shelf>(
    alloc: Global,
    shelf: &mut S,
    wanted: &Wanted,
    source: &ServerSource,
) -> Result<ServerWords, Stop>
    ensures cut { IfOk result (IsCut wanted.now.counts) }
    ensures reads { Reads (λ words. words) (S.seen shelf.old) (S.seen shelf.new)
        (source_errand wanted.now source.now) result }
{
    match source {
        ServerSource::Seed(seed) => match seed_words(alloc, wanted, seed) {
            Ok(words) => Ok(words),
            Err(_) => Err(Stop::OutOfMemory),
        },
        ServerSource::Tapes {
            coefficients,
            masks,
        } => read_tapes(alloc, shelf, wanted, coefficients.as_str(), masks.as_str()),
    }
}

/// The line for a server that has too few words of a kind.
fn too_few_line(
    alloc: Global,
    lot: Option<u32>,
    server: u32,
    kind: &str,
    held: u32,
    wanted: u32,
) -> Result<Vec<u8>, AllocError>
    ensures { IfOk result (λ line. line.items ≡ server_short_text lot server kind.now held wanted) }
{
    let of = lot_text(alloc, lot)?;
    let line = format!(in alloc; "too few words: {of}server {server} {kind} {held} of {wanted}\n")?;
    Ok(line.into_bytes())
}

/// Refuses a server that has too few words of a kind.
fn too_few_words(
    alloc: Global,
    lot: Option<u32>,
    server: u32,
    kind: &str,
    held: u32,
    wanted: u32,
) -> Stop
    ensures { Refuses Refusal.TooFewWords (server_short_text lot server kind.now held wanted) result }
{
    let line = too_few_line(alloc, lot, server, kind, held, wanted);
    Stop::of_line(Refusal::TooFewWords, line)
}

/// Refuses the server of this number if it has too few words, of which those for numbers are counted first.
fn check_counts(
    alloc: Global,
    wanted: &Wanted,
    server: u32,
    words: &ServerWords,
) -> Result<(), Stop>
    ensures tests { Tests (enough_of wanted.now server words.now) result }
    ensures enough { IfOk result (λ done. HasEnough wanted.now.counts words.now) }
{
    let lot = wanted.lot;
    let want = wanted.counts.coefficients();
    let held = words.coefficients.accepted_left();
    if held < want {
        return Err(too_few_words(alloc, lot, server, "coefficients", held, want));
    }
    let want = wanted.counts.masks();
    let held = words.masks.masks_left();
    if held < want {
        return Err(too_few_words(alloc, lot, server, "masks", held, want));
    }
    Ok(())
}

/// The words of the server of this number, cut to those that are kept. If they are fewer than are wanted, the server
/// is refused with the line `too few words: server S coefficients H of W` or `too few words: server S masks H of W`,
/// which names a lot before the server; a tape file that cannot be fetched, is too long or breaks the format is refused
/// with its line.
pub fn read_server<S: Shelf>(
    alloc: Global,
    shelf: &mut S,
    wanted: &Wanted,
    server: u32,
    source: &ServerSource,
) -> Result<ServerWords, Stop>
    ensures enough { IfOk result (HasEnough wanted.now.counts) }
    ensures cut { IfOk result (IsCut wanted.now.counts) }
    ensures reads { Reads (λ words. words) (S.seen shelf.old) (S.seen shelf.new)
        (server_errand wanted.now server source.now) result }
{
    let words = read_source(alloc, shelf, wanted, source)?;
    let checked = check_counts(alloc, wanted, server, &words);
    let (words, ()) = beside(words, checked)?;
    Ok(words)
}

/// The words of the three servers, each from its own source.
fn read_three<S: Shelf>(
    alloc: Global,
    shelf: &mut S,
    wanted: &Wanted,
    sources: &Trio<ServerSource>,
) -> Result<Trio<ServerWords>, Stop>
    ensures enough { IfOk result (HaveEnough wanted.now.counts) }
    ensures cut { IfOk result (AreCut wanted.now.counts) }
    ensures reads { Reads (λ servers. servers) (S.seen shelf.old) (S.seen shelf.new)
        (three_errand wanted.now sources.now) result }
{
    let one = read_server(alloc, shelf, wanted, 1, &sources.one)?;
    let (one, two) = beside(one, read_server(alloc, shelf, wanted, 2, &sources.two))?;
    let ((one, two), three) = beside(
        (one, two),
        read_server(alloc, shelf, wanted, 3, &sources.three),
    )?;
    Ok(Trio { one, two, three })
}

/// The fault of a bundle that has another number of bidders, if a number is given.
fn check_count(words: &Words, count: Option<usize>) -> Result<(), ReadFault>
    ensures { Answers (λ done. words.now) (counted count (Ok words.now)) result }
{
    match count {
        Some(count) if words.bidders.len() != count => Err(ReadFault::at_offset(8, WRONG_COUNT)),
        _ => Ok(()),
    }
}

/// The words of a bundle, which has so many bidders if a number is given.
fn counted_bundle(alloc: Global, bytes: &[u8], count: Option<usize>) -> Result<Words, ReadFault>
    requires { length bytes.now ≤ LONGEST_FILE }
    ensures { Answers (λ words. words) (counted count (bundle_of bytes.now)) result }
{
    let words = read_bundle(alloc, bytes)?;
    let checked = check_count(&words, count);
    let (words, ()) = beside(words, checked)?;
    Ok(words)
}

/// The words of a bundle file.
fn fetch_bundle<S: Shelf>(
    alloc: Global,
    shelf: &mut S,
    name: &str,
    count: Option<usize>,
) -> Result<Words, Stop>
    ensures { Reads (λ words. words) (S.seen shelf.old) (S.seen shelf.new)
        (reads name.now LONGEST_FILE (λ bytes. counted count (bundle_of bytes))) result }
{
    let bytes = fetch_file(alloc, shelf, name, LONGEST_FILE)?;
    judge(alloc, name, counted_bundle(alloc, bytes.as_slice(), count))
}

/// The words of one server in a bundle, cut as those of tape files are.
fn cut(
    alloc: Global,
    counts: &Counts,
    masks: &WordList,
    coefficients: &WordList,
) -> Result<ServerWords, AllocError>
    ensures { IfOk result (λ words. words ≡ cut_server counts.now masks.now coefficients.now) }
{
    Ok(ServerWords {
        masks: front(alloc, masks, counts.masks())?,
        coefficients: front(alloc, coefficients, counts.coefficients_kept())?,
    })
}

/// The words of the servers in a bundle, cut as those of tape files are, at their first words.
pub fn cut_three(
    alloc: Global,
    counts: &Counts,
    words: &Words,
) -> Result<Trio<ServerWords>, AllocError>
    ensures { IfOk result (λ servers. servers ≡ cut_servers counts.now words.now) }
{
    Trio::try_of(|at| {
        cut(
            alloc,
            counts,
            words.masks.get(at),
            words.coefficients.get(at),
        )
    })
}

/// Refuses the first server that has too few words.
pub fn check_three(alloc: Global, wanted: &Wanted, servers: &Trio<ServerWords>) -> Result<(), Stop>
    ensures tests { Tests (enough_of_all wanted.now servers.now) result }
    ensures enough { IfOk result (λ done. HaveEnough wanted.now.counts servers.now) }
{
    check_counts(alloc, wanted, 1, &servers.one)?;
    check_counts(alloc, wanted, 2, &servers.two)?;
    check_counts(alloc, wanted, 3, &servers.three)
}

/// The words of the bidders in a bundle, given away. Those of the servers are let go.
fn into_bidders(words: Words) -> Vec<WordList>
    ensures { result.items ≡ words.bidders }
{
    words.bidders
}

/// The words of a bundle: those of the servers, cut as those of tape files are, and those of the bidders.
fn cut_bundle(alloc: Global, counts: &Counts, words: Words) -> Result<AllWords, AllocError>
    ensures { IfOk result (λ all. all ≡ record {
      servers = cut_servers counts.now words;
      bidders = Some words.bidders;
    }) }
{
    let servers = cut_three(alloc, counts, &words);
    let (words, servers) = beside(words, servers)?;
    Ok(AllWords {
        servers,
        bidders: Some(into_bidders(words)),
    })
}

/// All words, from a bundle.
fn read_bundled<S: Shelf>(
    alloc: Global,
    shelf: &mut S,
    wanted: &Wanted,
    name: &Name,
    count: Option<usize>,
) -> Result<AllWords, Stop>
    ensures enough { IfOk result (λ words. HaveEnough wanted.now.counts words.servers) }
    ensures cut { IfOk result (λ words. AreCut wanted.now.counts words.servers) }
    ensures reads { Reads (λ words. words) (S.seen shelf.old) (S.seen shelf.new)
        (all_words_errand wanted.now count (Servers.Bundle name.now)) result }
{
    let words = fetch_bundle(alloc, shelf, name.as_str(), count)?;
    let words = cut_bundle(alloc, &wanted.counts, words)?;
    let checked = check_three(alloc, wanted, &words.servers);
    let (words, ()) = beside(words, checked)?;
    Ok(words)
}

/// All words, of the servers and of so many bidders if a bundle has them.
pub fn read_words<S: Shelf>(
    alloc: Global,
    shelf: &mut S,
    wanted: &Wanted,
    servers: &Servers,
    count: Option<usize>,
) -> Result<AllWords, Stop>
    ensures enough { IfOk result (λ words. HaveEnough wanted.now.counts words.servers) }
    ensures cut { IfOk result (λ words. AreCut wanted.now.counts words.servers) }
    ensures reads { Reads (λ words. words) (S.seen shelf.old) (S.seen shelf.new)
        (all_words_errand wanted.now count servers.now) result }
{
    match servers {
        Servers::Three(sources) => {
            let servers = read_three(alloc, shelf, wanted, sources)?;
            Ok(AllWords {
                servers,
                bidders: None,
            })
        }
        Servers::Bundle(name) => read_bundled(alloc, shelf, wanted, name, count),
    }
}

/// Where the words of the servers come from, of a servers file.
pub fn read_sources<S: Shelf>(alloc: Global, shelf: &mut S, name: &str) -> Result<Servers, Stop>
    ensures { Reads (λ servers. servers) (S.seen shelf.old) (S.seen shelf.new)
        (reads name.now SERVERS_LIMIT servers_of) result }
{
    let bytes = fetch_file(alloc, shelf, name, SERVERS_LIMIT)?;
    judge(alloc, name, read_servers(alloc, bytes.as_slice()))
}
