//! Three servers run to the end, each in a thread of its own.

ghost use Rattle.std.specs.Prelude.{◌≡◌, IfErr, IfOk, true, false};
ghost use Rattle.beet_field.specs.Trio.{member};
ghost use Rattle.beet_field.specs.declared.point.Point.TheVariants.{One, Two, Three};
ghost use Rattle.beet_server.specs.Cores.{AreFresh};
ghost use Rattle.beet_server.specs.Lockstep.{HaveEnded};
ghost use Rattle.beet_station.specs.Links.{AreLinked};
ghost use Rattle.beet_station.specs.Notes.{Awaits, notes_left};
ghost use Rattle.beet_station.specs.Stations.{IsTied};
ghost use Rattle.beet_threads.specs.Words.{HasTold};

use crate::serving::{Served, Serving, Start, end, say, serve_if_told, start};
use beet_field::{Point, Trio};
use beet_gates::Script;
use beet_link::Gate;
use beet_server::ServerCore;
use beet_station::{Links, Mail, Nobody, Sink, Station, all_links, mails, stations};
use beet_world::lockstep;
use std::alloc::{AllocError, Global};
use std::snapshot::Snapshot;
use std::sync::{OnceLock, Wait};
use std::thread;
use std::thread::Threads;
use std::time::Clock;

/// A server, and whom it has told of its rounds.
pub type Telling<S, K> = (ServerCore<S>, K);

fn telling<'s, S: Script<3>, K: Drop>(served: Served<'s, S, K>) -> Telling<S, K>
    ensures { result ≡ (served.entry.station.core, served.entry.sink) }
{
    let (station, sink) = (served.station, served.sink);
    (station.core, sink)
}

/// Three servers, and whom they have told.
// A call: inside its callers, the compiler would spend minutes on the moves of servers of some 10 KB each.
#[inline(never)]
pub fn apart<S: Script<3>, K>(ends: Trio<Telling<S, K>>) -> (Trio<ServerCore<S>>, Trio<K>)
    ensures servers { result.0 ≡ record { one = ends.one.0; two = ends.two.0; three = ends.three.0 } }
    ensures told { result.1 ≡ record { one = ends.one.1; two = ends.two.1; three = ends.three.1 } }
{
    let (one, of_one) = ends.one;
    let (two, of_two) = ends.two;
    let (three, of_three) = ends.three;
    let told = Trio {
        one: of_one,
        two: of_two,
        three: of_three,
    };
    (Trio { one, two, three }, told)
}

/// The servers, once each has served: `Ok` if they have run, and `Err` if they stand as they began. All have
/// heard one word.
fn settle<'s, S: Script<3>, K: Drop>(
    word: &'s Start,
    one: Served<'s, S, K>,
    two: Served<'s, S, K>,
    three: Served<'s, S, K>,
) -> Result<Trio<Telling<S, K>>, Trio<ServerCore<S>>>
    requires one { one.told.of ≡ word.now.id }
    requires two { two.told.of ≡ word.now.id }
    requires three { three.told.of ≡ word.now.id }
    ensures ran { IfOk result
        (λ ends. ((one.entry.told.value ≡ true) × (two.entry.told.value ≡ true) × (three.entry.told.value ≡ true))
        × (ends.one ≡ (one.entry.station.core, one.entry.sink)) × (ends.two ≡ (two.entry.station.core, two.entry.sink))
        × (ends.three ≡ (three.entry.station.core, three.entry.sink))) }
    ensures stayed { IfErr result
        (λ cores. ((one.entry.told.value ≡ false) × (two.entry.told.value ≡ false) × (three.entry.told.value ≡ false))
        × (cores.one ≡ one.entry.station.core) × (cores.two ≡ two.entry.station.core)
        × (cores.three ≡ three.entry.station.core)) }
{
    one.told.agrees(&two.told);
    one.told.agrees(&three.told);
    let go = *word.value(&one.told);
    let ends = Trio {
        one: telling(one),
        two: telling(two),
        three: telling(three),
    };
    if go {
        return Ok(ends);
    }
    let (cores, _told) = apart(ends);
    Err(cores)
}

/// Runs the first server in this thread and the two others in workers: the servers at their end. `Err`: a worker
/// could not be started, and no server has begun.
pub fn in_threads<
    S: Script<3> + Send,
    R: Threads + Wait + Clock + Sync,
    G: Gate,
    K: Sink + Send + Drop,
>(
    rt: &R,
    gate: &G,
    servings: Trio<Serving<S, K>>,
) -> Result<Trio<Telling<S, K>>, Trio<ServerCore<S>>>
where
    S::Place: Send,
    ensures one { IfOk result (λ ends. HasTold S.batch_of S.inputs_of S.rounds_of K.due K.origin
        servings.one.run.value servings.one.me servings.one.sink ends.one) }
    ensures two { IfOk result (λ ends. HasTold S.batch_of S.inputs_of S.rounds_of K.due K.origin
        servings.two.run.value servings.two.me servings.two.sink ends.two) }
    ensures three { IfOk result (λ ends. HasTold S.batch_of S.inputs_of S.rounds_of K.due K.origin
        servings.three.run.value servings.three.me servings.three.sink ends.three) }
    ensures stayed { IfErr result (λ cores. (cores.one ≡ member servings.one.run.value servings.one.me)
        × (cores.two ≡ member servings.two.run.value servings.two.me)
        × (cores.three ≡ member servings.three.run.value servings.three.me)) }
{
    let word: Start = OnceLock::new();
    let word = &word;
    let Trio { one, two, three } = servings;
    thread::scope(
        thread::scope_env(),
        rt,
        move |scope| -> Result<Trio<Telling<S, K>>, Trio<ServerCore<S>>>
            ensures one { IfOk result (λ ends. HasTold S.batch_of S.inputs_of S.rounds_of K.due K.origin one.run.value
                one.me one.sink ends.one) }
            ensures two { IfOk result (λ ends. HasTold S.batch_of S.inputs_of S.rounds_of K.due K.origin two.run.value
                two.me two.sink ends.two) }
            ensures three { IfOk result (λ ends. HasTold S.batch_of S.inputs_of S.rounds_of K.due K.origin
                three.run.value three.me three.sink ends.three) }
            ensures stayed { IfErr result (λ cores. (cores.one ≡ member one.run.value one.me)
                × (cores.two ≡ member two.run.value two.me) × (cores.three ≡ member three.run.value three.me)) }
        {
            let two = start(scope, rt, gate, word, two);
            let three = start(scope, rt, gate, word, three);
            say(rt, word, true);
            let one = serve_if_told(rt, gate, word, one);
            let two = end(rt, two);
            let three = end(rt, three);
            settle(word, one, two, three)
        },
    )
}

/// All three servers as they begin, for each of them. A snapshot has no bytes, and stands in proofs alone.
pub type Runs<S> = Trio<Snapshot<Trio<ServerCore<S>>>>;

/// They are taken before the servers go into their stations.
pub fn runs<S: Script<3>>(cores: &Trio<ServerCore<S>>) -> Runs<S>
    ensures one { result.one.value ≡ cores.now }
    ensures two { result.two.value ≡ cores.now }
    ensures three { result.three.value ≡ cores.now }
{
    Trio::of(|_| Snapshot::of(cores))
}

/// The three servers with their ends, as they are to run.
pub fn servings<S: Script<3>, K: Sink>(
    stations: Trio<Station<S>>,
    mails: Trio<Mail>,
    sinks: Trio<K>,
    runs: Runs<S>,
) -> Trio<Serving<S, K>>
    requires one { IsTied S.batch_of S.inputs_of S.rounds_of runs.one.value One stations.one }
    requires two { IsTied S.batch_of S.inputs_of S.rounds_of runs.two.value Two stations.two }
    requires three { IsTied S.batch_of S.inputs_of S.rounds_of runs.three.value Three stations.three }
    requires begins { (stations.one.core ≡ runs.one.value.one) × (stations.two.core ≡ runs.two.value.two)
        × (stations.three.core ≡ runs.three.value.three) }
    requires one_told { Awaits (K.due sinks.one)
        (notes_left S.batch_of S.inputs_of S.rounds_of runs.one.value One stations.one.core.round) }
    requires two_told { Awaits (K.due sinks.two)
        (notes_left S.batch_of S.inputs_of S.rounds_of runs.two.value Two stations.two.core.round) }
    requires three_told { Awaits (K.due sinks.three)
        (notes_left S.batch_of S.inputs_of S.rounds_of runs.three.value Three stations.three.core.round) }
    ensures one { (result.one.me ≡ One) × (result.one.run.value ≡ runs.one.value) × (result.one.sink ≡ sinks.one) }
    ensures two { (result.two.me ≡ Two) × (result.two.run.value ≡ runs.two.value) × (result.two.sink ≡ sinks.two) }
    ensures three { (result.three.me ≡ Three) × (result.three.run.value ≡ runs.three.value)
        × (result.three.sink ≡ sinks.three) }
{
    Trio {
        one: Serving {
            me: Point::One,
            station: stations.one,
            mail: mails.one,
            sink: sinks.one,
            run: runs.one,
        },
        two: Serving {
            me: Point::Two,
            station: stations.two,
            mail: mails.two,
            sink: sinks.two,
            run: runs.two,
        },
        three: Serving {
            me: Point::Three,
            station: stations.three,
            mail: mails.three,
            sink: sinks.three,
            run: runs.three,
        },
    }
}

/// All memory that three servers need to run in threads.
pub fn rooms<S: Script<3>>(
    alloc: Global,
    cores: &Trio<ServerCore<S>>,
) -> Result<(Links, Trio<Mail>), AllocError>
    requires { AreFresh S.batch_of S.inputs_of cores.now }
    ensures { IfOk result (λ rooms. AreLinked S.batch_of S.inputs_of S.rounds_of cores.now rooms.0) }
{
    let links = all_links(alloc, cores)?;
    let mails = mails(alloc)?;
    Ok((links, mails))
}

/// Runs three fresh servers to the end, the second and the third in workers. If a link finds no memory or a worker
/// cannot be started, no server has begun, and all three run in lockstep instead, without the gate.
pub fn run_three<S: Script<3> + Send, R: Threads + Wait + Clock + Sync, G: Gate>(
    rt: &R,
    alloc: Global,
    cores: Trio<ServerCore<S>>,
    gate: &G,
) -> Trio<ServerCore<S>>
where
    S::Place: Send,
    requires { AreFresh S.batch_of S.inputs_of cores }
    ensures { HaveEnded S.batch_of S.inputs_of S.rounds_of cores result }
{
    let runs = runs(&cores);
    let Ok((links, mails)) = rooms(alloc, &cores) else {
        return lockstep(cores);
    };
    let nobody = Trio {
        one: Nobody,
        two: Nobody,
        three: Nobody,
    };
    match in_threads(
        rt,
        gate,
        servings(stations(cores, links), mails, nobody, runs),
    ) {
        Ok(ends) => {
            let (ended, _nobody) = apart(ends);
            ended
        }
        Err(cores) => lockstep(cores),
    }
}
