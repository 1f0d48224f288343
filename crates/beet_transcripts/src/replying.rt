//! The reply for three servers that have run an auction: how it ended, and the transcript of each.

ghost use Rattle.std.specs.Prelude.{◌≡◌, ◌∷◌, [], ℕ, IfOk, List};
ghost use Rattle.beet_field.specs.declared.point.Point.TheVariants.{One, Two, Three};
ghost use Rattle.beet_field.specs.declared.trio.Trio.{Trio as Each};
ghost use Rattle.beet_errand.specs.Errands.{file_for};
ghost use Rattle.beet_load.specs.Servers.{ServerWords};
ghost use Rattle.beet_plan.specs.declared.Finish.{Finish};
ghost use Rattle.beet_run.specs.Runs.{HaveRunToEnd};
ghost use Rattle.beet_transcripts.specs.RunsOn.{HasRunOn, answer_on};
ghost use Rattle.beet_view.specs.RunViews.{core_transcript};

use crate::dealing::SeenByAll;
use beet_bids::Grid;
use beet_errand::{NewFile, Reply};
use beet_field::{Point, Trio};
use beet_run::{finish_at, outcome_reply};
use beet_search::AuctionScript;
use beet_server::ServerCore;
use beet_view::{ShownBidders, transcript_of};
use std::alloc::{AllocError, Global};
use std::marker::Sync;
use std::thread::{Threads, join};

/// The transcripts of two servers that have ended, each written by a thread of its own.
fn write_two<R: Threads + Sync>(
    rt: &R,
    alloc: Global,
    grid: &Grid,
    first: &ServerCore<AuctionScript>,
    seen: ShownBidders,
    second: &ServerCore<AuctionScript>,
    others: ShownBidders,
) -> (Result<Vec<u8>, AllocError>, Result<Vec<u8>, AllocError>)
    ensures first { IfOk result.0 (λ file. file.items ≡ core_transcript first.now grid.now seen) }
    ensures second { IfOk result.1 (λ file. file.items ≡ core_transcript second.now grid.now others) }
{
    join(
        rt,
        || transcript_of(alloc, first, grid, seen),
        || transcript_of(alloc, second, grid, others),
    )
}

/// The transcripts of three servers that have ended, each written by a thread of its own.
fn write_three<R: Threads + Sync>(
    rt: &R,
    alloc: Global,
    cores: &Trio<ServerCore<AuctionScript>>,
    grid: &Grid,
    seen: Trio<ShownBidders>,
) -> Result<Trio<Vec<u8>>, AllocError>
    ensures one { IfOk result (λ files. files.one.items ≡ core_transcript cores.now.one grid.now seen.one) }
    ensures two { IfOk result (λ files. files.two.items ≡ core_transcript cores.now.two grid.now seen.two) }
    ensures three { IfOk result (λ files. files.three.items ≡ core_transcript cores.now.three grid.now seen.three) }
{
    let Trio { one, two, three } = seen;
    let (one, (two, three)) = join(
        rt,
        || transcript_of(alloc, &cores.one, grid, one),
        || -> (Result<Vec<u8>, AllocError>, Result<Vec<u8>, AllocError>)
            ensures { IfOk result.0 (λ file. file.items ≡ core_transcript cores.entry.now.two grid.entry.now two)
                × IfOk result.1 (λ file. file.items ≡ core_transcript cores.entry.now.three grid.entry.now three) }
        { write_two(rt, alloc, grid, &cores.two, two, &cores.three, three) },
    );
    let files = Trio { one, two, three }.transpose()?;
    Ok(files)
}

/// The files of the transcripts of the servers.
fn transcript_files(
    alloc: Global,
    out: &str,
    transcripts: Trio<Vec<u8>>,
) -> Result<Vec<NewFile>, AllocError>
    ensures { IfOk result (λ files. files.items ≡
        (file_for out.now One, transcripts.one.items)
        ∷ (file_for out.now Two, transcripts.two.items)
        ∷ (file_for out.now Three, transcripts.three.items) ∷ []) }
{
    let one = NewFile::of_server(alloc, out, Point::One, transcripts.one)?;
    let two = NewFile::of_server(alloc, out, Point::Two, transcripts.two)?;
    let three = NewFile::of_server(alloc, out, Point::Three, transcripts.three)?;
    Ok(vec![in alloc; one, two, three]?)
}

/// The reply for three servers that have run the auction over the grid to its end, with the bidders as each of them
/// sees them: how the run ended, and the transcript of each server in the file of the name `out`, a dot and its number.
/// Each transcript is written by a thread of its own.
pub fn reply_of_run<R: Threads + Sync>(
    rt: &R,
    alloc: Global,
    grid: &Grid,
    seen: SeenByAll,
    cores: Trio<ServerCore<AuctionScript>>,
    out: &str,
) -> Result<Reply, AllocError>
    requires run { (inputs : Each (List ℕ)) × (words : Each ServerWords) × HaveRunToEnd grid.now inputs words cores }
    ensures { (inputs : Each (List ℕ)) (words : Each ServerWords) (finish : Finish) (rounds : ℕ)
        → HasRunOn grid.now inputs words cores finish rounds
        → IfOk result (λ reply. reply ≡ answer_on out.now grid.now inputs words seen finish rounds) }
{
    let finish = finish_at(&cores.one);
    let rounds = cores.one.round();
    let reply = outcome_reply(alloc, grid, finish, rounds);
    let transcripts = write_three(rt, alloc, &cores, grid, seen.into_parts());
    // One call lets them go: else the proof of each way out goes through each of their parts.
    drop(cores);
    let reply = reply?;
    let transcripts = transcripts?;
    let files = transcript_files(alloc, out, transcripts)?;
    Ok(Reply {
        status: reply.status,
        files,
        text: reply.text,
    })
}
