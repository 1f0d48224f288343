//! Three servers in threads, which the desk watches from a fourth.

ghost use Rattle.std.specs.Prelude.{◌≡◌, ◌<◌, ◌*◌, ◌^◌, IfErr, IfOk, [], length};
ghost use Rattle.beet_field.specs.Trio.{member};
ghost use Rattle.beet_field.specs.declared.point.Point.{Point};
ghost use Rattle.beet_server.specs.Cores.{AreFresh, setup_of};
ghost use Rattle.beet_server.specs.Lockstep.{HaveEnded};
ghost use Rattle.beet_link.specs.Streams.{rounds_from};
ghost use Rattle.beet_station.specs.Stations.{IsEnded};
ghost use Rattle.beet_desk.specs.Counts.{IsTally, count_in};
ghost use Rattle.beet_desk.specs.Ends.{AreSmall, AreFirst, IsWholeOf};

use crate::counts::{NoteCount, count_rest, watch};
use crate::ending::Ending;
use crate::ends::{NoteRx, NoteTx};
use crate::making::note_queue;
use beet_field::{Point, Trio};
use beet_gates::Script;
use beet_link::FreeGate;
use beet_server::ServerCore;
use beet_station::stations;
use beet_threads::{Telling, apart, in_threads, rooms, runs, servings};
use beet_world::lockstep;
use std::alloc::{AllocError, Global};
use std::sync::Wait;
use std::thread;
use std::thread::Threads;
use std::time::Clock;

/// Three servers that have ended, and the counts of their notes.
#[derive(Drop)]
pub struct WatchedServers<S: Script<3>> {
    pub cores: Trio<ServerCore<S>>,
    pub counts: Trio<NoteCount>,
}

/// The count of the notes of a server that has ended.
fn count_at<S: Script<3>>(core: &ServerCore<S>) -> NoteCount
    ensures notes { result.notes ≡ core.now.round }
    ensures opened { result.opened ≡ length core.now.opened }
{
    NoteCount {
        notes: core.round(),
        opened: core.opened().len() as u64,
    }
}

/// Runs three fresh servers in lockstep, and counts the notes from their rounds and opened numbers.
fn unwatched<S: Script<3>>(fresh: Trio<ServerCore<S>>) -> WatchedServers<S>
    requires { AreFresh S.batch_of S.inputs_of fresh }
    ensures cores { HaveEnded S.batch_of S.inputs_of S.rounds_of fresh result.cores }
    ensures counts { (s : Point) → member result.counts s
        ≡ count_in (setup_of S.batch_of S.inputs_of fresh) (rounds_from S.batch_of S.inputs_of S.rounds_of fresh) }
{
    let cores = lockstep(fresh);
    let counts = Trio {
        one: count_at(&cores.one),
        two: count_at(&cores.two),
        three: count_at(&cores.three),
    };
    WatchedServers { cores, counts }
}

/// What comes of three servers in threads: each with the end that it has told, or, if a worker could not be started,
/// the three as they began.
type Told<S> = Result<Trio<Telling<S, NoteTx>>, Trio<ServerCore<S>>>;

/// Runs three fresh servers to the end, each in a thread of its own, and counts in a fourth what they tell of their
/// rounds. If a link finds no memory or a worker cannot be started, no server has begun, and all three run in lockstep
/// instead. The only error is want of memory for the queue of notes. It may wait.
pub fn run_watched<S: Script<3> + Send, R: Threads + Wait + Clock + Sync>(
    rt: &R,
    alloc: Global,
    cores: Trio<ServerCore<S>>,
) -> Result<WatchedServers<S>, AllocError>
where
    S::Place: Send,
    requires fresh { AreFresh S.batch_of S.inputs_of cores }
    requires few { 3 * S.rounds_of cores.one.script < 2 ^ 31 }
    ensures cores { IfOk result (λ watched.
        HaveEnded S.batch_of S.inputs_of S.rounds_of cores watched.cores) }
    ensures counts { IfOk result (λ watched. (s : Point) → member watched.counts s
        ≡ count_in (setup_of S.batch_of S.inputs_of cores) (rounds_from S.batch_of S.inputs_of S.rounds_of cores)) }
{
    let runs = runs(&cores);
    let (senders, receiver) = match note_queue(alloc, &cores) {
        Ok(ends) => ends,
        Err(error) => {
            // One call lets them go: else the proof of this way out goes through each of their parts.
            drop(cores);
            return Err(error);
        }
    };
    let Ok((links, mails)) = rooms(alloc, &cores) else {
        drop(senders);
        return Ok(unwatched(cores));
    };
    let stations = stations(cores, links);
    let servings = servings(stations, mails, senders, runs);
    let ending = Ending::new();
    let ending = &ending;
    let ((receiver, counts), ended) = thread::join(
        rt,
        move || -> (NoteRx, Trio<NoteCount>)
            requires { (receiver.taken ≡ [])
                × ((s : Point) → AreSmall (member receiver.notes s)) }
            ensures { (result.0.queue ≡ receiver.queue) × (result.0.notes ≡ receiver.notes)
                × AreFirst result.0.notes result.0.taken
                × IsTally result.0.taken result.1 }
        { watch(rt, receiver, ending) },
        move || -> Told<S>
            ensures one { IfOk result (λ ends.
                IsEnded S.batch_of S.inputs_of S.rounds_of
                servings.one.run.value servings.one.me ends.one.0 × IsWholeOf servings.one.sink ends.one.1) }
            ensures two { IfOk result (λ ends.
                IsEnded S.batch_of S.inputs_of S.rounds_of
                servings.two.run.value servings.two.me ends.two.0 × IsWholeOf servings.two.sink ends.two.1) }
            ensures three { IfOk result (λ ends.
                IsEnded S.batch_of S.inputs_of S.rounds_of
                servings.three.run.value servings.three.me ends.three.0 × IsWholeOf servings.three.sink ends.three.1) }
            ensures stayed { IfErr result (λ cores. (cores.one ≡ member servings.one.run.value servings.one.me)
                × (cores.two ≡ member servings.two.run.value servings.two.me)
                × (cores.three ≡ member servings.three.run.value servings.three.me)) }
        {
            let ended = in_threads(rt, &FreeGate, servings);
            ending.tell();
            ended
        },
    );
    let ends = match ended {
        Ok(ends) => ends,
        Err(stayed) => {
            drop(receiver);
            return Ok(unwatched(stayed));
        }
    };
    let (servers, told) = apart(ends);
    let rest = receiver.close(told);
    let counts = count_rest(rt, rest, counts);
    Ok(WatchedServers {
        cores: servers,
        counts,
    })
}
