//! A server at a gate that looks at the far ends of its links, in a run of one round.

use super::links::expect_one;
use beet_field::{Point, Trio};
use beet_link::{Gate, GateNote, LinkRx};
use beet_samples::three_of_inputs;
use beet_station::{Nobody, all_links, mails, put_both, serve, stations};
use std::alloc::Global;
use std::process::Abort;
use std::snapshot::Snapshot;
use std::sync::atomic::{AtomicU64, Ordering};
use std::sync::{Mutex, Wait};
use std::time::Clock;

/// A gate that holds a server, and looks whether its message is at the far end of one of its links.
struct Looking<R: Wait> {
    rt: R,
    /// The far ends of the links from the server.
    far: Mutex<(LinkRx, LinkRx)>,
    /// How often the server came.
    met: AtomicU64,
    /// How often there was no message at either far end.
    empty: AtomicU64,
}

impl<R: Wait + Sync> Gate for Looking<R> {
    type Seat = ();

    fn seat(&self, _server: Point) {}

    fn meet(&self, _seat: &mut (), _note: GateNote) {
        self.met.fetch_add(1, Ordering::SeqCst);
        let mut far = self.far.lock(&self.rt);
        if far.0.take(&self.rt).is_none() && far.1.take(&self.rt).is_none() {
            self.empty.fetch_add(1, Ordering::SeqCst);
        }
    }
}

/// Runs server 1 to its end, after its peers have put their messages of the one round. The gate looks at the far ends
/// of its links before it puts, and this test once more after that.
fn expect_later<R: Wait + Clock + Abort + Sync + Copy>(rt: &R, alloc: Global) {
    let cores = three_of_inputs(alloc).expect(rt, "three servers");
    let run = Snapshot::of(&cores);
    let links = all_links(alloc, &cores).expect(rt, "memory");
    let mails = mails(alloc).expect(rt, "memory");
    let Trio {
        mut one,
        mut two,
        mut three,
    } = stations(cores, links);
    assert!(rt; !two.core.ended() && !three.core.ended());
    put_both(rt, Point::Two, &mut two, mails.two, &run);
    put_both(rt, Point::Three, &mut three, mails.three, &run);
    let gate = Looking {
        rt: *rt,
        far: Mutex::new((two.from_low, three.from_low)),
        met: AtomicU64::new(0),
        empty: AtomicU64::new(0),
    };
    let mail = serve(
        rt,
        &gate,
        Point::One,
        &mut one,
        mails.one,
        &mut Nobody,
        &run,
    );
    assert!(rt; one.core.ended());
    let Looking {
        rt: _,
        far,
        met,
        empty,
    } = gate;
    assert_eq!(rt; met.load(Ordering::SeqCst), 1);
    assert_eq!(rt; empty.load(Ordering::SeqCst), 1);
    let (mut two, mut three) = far.into_inner();
    expect_one(rt, &mut two, Point::Two);
    expect_one(rt, &mut three, Point::Three);
    drop((one, mail, two, three));
}

#[test]
fn a_server_puts_after_it_has_met_the_gate(rt: HostRuntime) {
    expect_later(&rt, rt.alloc());
}
