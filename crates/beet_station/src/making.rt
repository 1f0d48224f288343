//! Three servers with the links between them.

ghost use Rattle.std.specs.Prelude.{◌≡◌, ◌≢◌, IfOk};
ghost use Rattle.beet_server.specs.Cores.{AreFresh};
ghost use Rattle.beet_station.specs.Links.{AreBetween, AreLinked};
ghost use Rattle.beet_station.specs.Stations.{AreTied};

use crate::station::{Mail, Station};
use beet_field::{Point, Trio};
use beet_gates::Script;
use beet_link::{LinkRx, LinkTx, link};
use beet_round::RoundMessage;
use beet_server::ServerCore;
use std::alloc::{AllocError, Global};

/// What a server has of the links with one peer: the end to it, and the end from it.
#[derive(Drop)]
pub struct Ends {
    pub to: LinkTx,
    pub from: LinkRx,
}

/// Both links between two servers: the ends of the first, and those of the second.
fn pair<S: Script<3>>(
    alloc: Global,
    cores: &Trio<ServerCore<S>>,
    first: Point,
    second: Point,
) -> Result<(Ends, Ends), AllocError>
    requires fresh { AreFresh S.batch_of S.inputs_of cores.now }
    requires apart { first ≢ second }
    ensures { IfOk result (AreBetween S.batch_of S.inputs_of S.rounds_of cores.now first second) }
{
    let (there, from_first) = link(alloc, cores, first, second)?;
    let (back, from_second) = link(alloc, cores, second, first)?;
    Ok((
        Ends {
            to: there,
            from: from_second,
        },
        Ends {
            to: back,
            from: from_first,
        },
    ))
}

/// The links between three servers: for each two of them the ends of the lower and those of the higher.
#[derive(Drop)]
pub struct Links {
    pub one_two: (Ends, Ends),
    pub one_three: (Ends, Ends),
    pub two_three: (Ends, Ends),
}

/// All six links of three fresh servers. No other call takes memory.
pub fn all_links<S: Script<3>>(
    alloc: Global,
    cores: &Trio<ServerCore<S>>,
) -> Result<Links, AllocError>
    requires { AreFresh S.batch_of S.inputs_of cores.now }
    ensures { IfOk result (AreLinked S.batch_of S.inputs_of S.rounds_of cores.now) }
{
    // Each pair of links stands at the server that it leaves out.
    let links = Trio {
        one: pair(alloc, cores, Point::Two, Point::Three),
        two: pair(alloc, cores, Point::One, Point::Three),
        three: pair(alloc, cores, Point::One, Point::Two),
    };
    let Trio { one, two, three } = links.transpose()?;
    Ok(Links {
        one_two: three,
        one_three: two,
        two_three: one,
    })
}

fn station<S: Script<3>>(core: ServerCore<S>, low: Ends, high: Ends) -> Station<S>
    ensures { result ≡ record {
      core = core;
      to_low = low.to;
      to_high = high.to;
      from_low = low.from;
      from_high = high.from;
    } }
{
    Station {
        core,
        to_low: low.to,
        to_high: high.to,
        from_low: low.from,
        from_high: high.from,
    }
}

/// Three fresh servers with their ends, which are those of all six links between them.
pub fn stations<S: Script<3>>(cores: Trio<ServerCore<S>>, links: Links) -> Trio<Station<S>>
    requires fresh { AreFresh S.batch_of S.inputs_of cores }
    requires links { AreLinked S.batch_of S.inputs_of S.rounds_of cores links }
    ensures tied { AreTied S.batch_of S.inputs_of S.rounds_of cores result }
    ensures cores { (result.one.core ≡ cores.one) × (result.two.core ≡ cores.two) × (result.three.core ≡ cores.three) }
{
    let (one_with_two, two_with_one) = links.one_two;
    let (one_with_three, three_with_one) = links.one_three;
    let (two_with_three, three_with_two) = links.two_three;
    Trio {
        one: station(cores.one, one_with_two, one_with_three),
        two: station(cores.two, two_with_one, two_with_three),
        three: station(cores.three, three_with_one, three_with_two),
    }
}

/// Room for the messages of a server.
fn mail(alloc: Global, me: Point) -> Result<Mail, AllocError> {
    let low = Box::new(alloc, RoundMessage::blank(me, me))?;
    let high = Box::new(alloc, RoundMessage::blank(me, me))?;
    Ok(Mail { low, high })
}

/// Room for the messages of three servers.
pub fn mails(alloc: Global) -> Result<Trio<Mail>, AllocError> {
    Trio::try_of(|me| mail(alloc, me))
}
