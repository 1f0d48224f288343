//! One server that is to run to its end, and the worker that runs it.

ghost use Rattle.std.specs.Prelude.{◌≡◌, IfErr, IfOk, true, false};
ghost use Rattle.beet_field.specs.Trio.{member};
ghost use Rattle.beet_station.specs.Notes.{Awaits, notes_left};
ghost use Rattle.beet_station.specs.Stations.{IsTied};
ghost use Rattle.beet_threads.specs.Words.{HasServed};

use beet_field::{Point, Trio};
use beet_gates::Script;
use beet_link::Gate;
use beet_server::ServerCore;
use beet_station::{Mail, Sink, Station, serve};
use std::snapshot::Snapshot;
use std::sync::{OnceLock, OnceToken, Wait};
use std::thread::{Promise, PromisedHandle, Scope, Threads};
use std::time::Clock;

/// A server that is to run, with its ends, whom it tells of its rounds, and the three servers as the run began.
#[derive(Drop)]
pub struct Serving<S: Script<3>, K: Sink> {
    pub me: Point,
    pub station: Station<S>,
    pub mail: Mail,
    pub sink: K,
    pub run: Snapshot<Trio<ServerCore<S>>>,
    ghost tied: { IsTied S.batch_of S.inputs_of S.rounds_of run.value me station },
    ghost begins: { station.core ≡ member run.value me },
    ghost told: { Awaits (K.due sink) (notes_left S.batch_of S.inputs_of S.rounds_of run.value me station.core.round) },
}

/// Whether the servers are to run, once that is said. The first word stands.
pub type Start = OnceLock<bool>;

/// A server that has heard whether it is to run, and then has run to its end or stands as it began.
#[derive(Drop)]
pub struct Served<'s, S: Script<3>, K> {
    pub told: OnceToken<'s, bool>,
    pub station: Station<S>,
    pub mail: Mail,
    pub sink: K,
}

/// What the worker of a server answers.
#[derive(Drop)]
pub struct Ends<S: Script<3>, K: Sink> {
    serving: Snapshot<Serving<S, K>>,
    word: Snapshot<Start>,
}

impl<'s, S: Script<3>, K: Sink> Promise<Served<'s, S, K>> for Ends<S, K> {
    ghost use Rattle.beet_threads.specs.Words.{HasServed};

    ghost kept_by = { λ p r. HasServed S.batch_of S.inputs_of S.rounds_of K.due K.origin
        p.serving.value.run.value p.serving.value.me p.serving.value.sink p.word.value.id r.told.of r.told.value
        (r.station.core, r.sink) };
}

/// Says whether the servers are to run, unless that was said before.
pub fn say<R: Wait>(rt: &R, word: &Start, go: bool) {
    let _said = word.set(rt, go);
}

fn hear_word<'s, R: Wait>(rt: &R, word: &'s Start) -> OnceToken<'s, bool>
    ensures { result.of ≡ word.now.id }
{
    for _ in rt.forever() {
        word.wait(rt);
        if let Some(told) = word.witness() {
            return told;
        }
    }
    unreachable!()
}

/// Waits for the word, and runs the server to its end if it is to run.
pub fn serve_if_told<'s, S: Script<3>, R: Wait + Clock, G: Gate, K: Sink>(
    rt: &R,
    gate: &G,
    word: &'s Start,
    serving: Serving<S, K>,
) -> Served<'s, S, K>
    ensures { HasServed S.batch_of S.inputs_of S.rounds_of K.due K.origin serving.run.value serving.me
        serving.sink word.now.id
        result.told.of result.told.value (result.station.core, result.sink) }
{
    let told = hear_word(rt, word);
    let Serving {
        me,
        mut station,
        mail,
        mut sink,
        run,
    } = serving;
    if *word.value(&told) {
        let mail = serve(rt, gate, me, &mut station, mail, &mut sink, &run);
        return Served {
            told,
            station,
            mail,
            sink,
        };
    }
    Served {
        told,
        station,
        mail,
        sink,
    }
}

/// A worker that runs a server.
pub type Worker<'s, S, K> = PromisedHandle<Served<'s, S, K>, Ends<S, K>>;

/// Starts a worker that runs the server if it is told to. If no thread can be made it says that no server is to
/// run, and answers the server.
pub fn start<
    's,
    E,
    S: Script<3> + Send + 's,
    R: Wait + Clock + Sync,
    G: Gate,
    K: Sink + Send + Drop + 's,
>(
    scope: &Scope<'s, E>,
    rt: &'s R,
    gate: &'s G,
    word: &'s Start,
    serving: Serving<S, K>,
) -> Result<Worker<'s, S, K>, Served<'s, S, K>>
where
    S::Place: Send,
    ensures ok { IfOk result
        (λ worker. (worker.promise.serving.value ≡ serving) × (worker.promise.word.value ≡ word.now)) }
    ensures err { IfErr result
        (λ served. HasServed S.batch_of S.inputs_of S.rounds_of K.due K.origin serving.run.value serving.me serving.sink
        word.now.id served.told.of served.told.value (served.station.core, served.sink)) }
{
    let ends = Ends {
        serving: Snapshot::of(&serving),
        word: Snapshot::of(word),
    };
    match scope.spawn_with(
        ends,
        move || -> Served<'_, S, K>
            ensures { HasServed S.batch_of S.inputs_of S.rounds_of K.due K.origin serving.run.value serving.me
                serving.sink word.entry.now.id
                result.told.of result.told.value (result.station.core, result.sink) }
        { serve_if_told(rt, gate, word, serving) },
    ) {
        Ok(worker) => Ok(worker),
        Err(refused) => {
            say(rt, word, false);
            let back = refused.value;
            Err(back())
        }
    }
}

/// The server of a worker, once that has ended, or the one for which there is none.
pub fn end<'s, S: Script<3>, R: Threads, K: Sink>(
    rt: &R,
    started: Result<Worker<'s, S, K>, Served<'s, S, K>>,
) -> Served<'s, S, K>
    ensures worker { IfOk started.entry (λ worker. HasServed S.batch_of S.inputs_of S.rounds_of K.due K.origin
        worker.promise.serving.value.run.value worker.promise.serving.value.me worker.promise.serving.value.sink
        worker.promise.word.value.id
        result.told.of result.told.value (result.station.core, result.sink)) }
    ensures back { IfErr started.entry (λ served. served ≡ result) }
{
    match started {
        Ok(worker) => worker.join(rt),
        Err(served) => served,
    }
}
