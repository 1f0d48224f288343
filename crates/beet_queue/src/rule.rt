//! The rule of the queue: what it holds, and what each pass knows of it.

use beet_field::Trio;
use crossbeam_queue::protocol::{Join, Lesson, Outcome, Protocol, Split};
use crossbeam_queue::{Pass, RuledArrayQueue};
use std::collections::LinkedList;
use std::marker::{Brand, PhantomData};

/// What goes through the queue: each item is of one server.
pub trait FromServer {
    ghost use Rattle.beet_field.specs.declared.point.Point.{Point};

    ghost server: { Self → Point };
}

// What a pass may do, the items that were named of each server, how many of each it knows to be put, and those that it
// knows to be taken. No value of it is made.
pub struct Known<T> {
    pub puts: Trio<bool>,
    pub takes: bool,
    pub streams: Trio<LinkedList<T>>,
    pub put: Trio<u64>,
    pub taken: LinkedList<T>,
}

/// The items of each server go through the queue in the order in which they were named.
pub struct InOrder;

impl<T: FromServer> Protocol<T, Known<T>> for InOrder {
    ghost use Rattle.beet_queue.specs.Rule.{Carries, first_known};

    ghost holds = { Carries T.server };

    ghost first = { first_known };
}

/// An item is put by its server.
pub struct Puts;

impl<T: FromServer> Outcome<T, Known<T>> for Puts {
    ghost use Rattle.std.specs.Prelude.{◌≡◌};
    ghost use Rattle.beet_queue.specs.Rule.{one_put};

    ghost then = { λ v x w. w ≡ one_put (T.server x) v };
}

impl<T: FromServer> Lesson<T, Known<T>> for Puts {
    ghost use Rattle.beet_queue.specs.Rule.{HasRoom};

    ghost fact = { HasRoom };
}

/// The oldest item is taken.
pub struct Takes;

impl<T: FromServer> Outcome<T, Known<T>> for Takes {
    ghost use Rattle.std.specs.Prelude.{◌≡◌};
    ghost use Rattle.beet_queue.specs.Rule.{one_taken, IsDue};

    ghost then = { λ v x w. (w ≡ one_taken x v) × IsDue T.server v x };
}

impl<T: FromServer> Lesson<T, Known<T>> for Takes {
    ghost use Rattle.beet_queue.specs.Rule.{KnowsAll};

    ghost fact = { KnowsAll T.server };
}

/// The items of each server.
pub trait Named<T> {
    ghost use Rattle.std.specs.Prelude.{List};
    ghost use Rattle.beet_field.specs.declared.trio.Trio.{Trio};

    ghost streams: { Trio (List T) };
}

impl<T> Named<T> for Brand {
    ghost use Rattle.std.specs.Prelude.{[]};
    ghost use Rattle.beet_field.specs.Trio.{trio_of};

    ghost streams = { trio_of (λ _. []) };
}

/// One server.
pub trait Which {
    ghost use Rattle.beet_field.specs.declared.point.Point.{Point};

    ghost server: { Point };
}

pub struct ToOne;

impl Which for ToOne {
    ghost use Rattle.beet_field.specs.declared.point.Point.TheVariants.{One};

    ghost server = { One };
}

pub struct ToTwo;

impl Which for ToTwo {
    ghost use Rattle.beet_field.specs.declared.point.Point.TheVariants.{Two};

    ghost server = { Two };
}

pub struct ToThree;

impl Which for ToThree {
    ghost use Rattle.beet_field.specs.declared.point.Point.TheVariants.{Three};

    ghost server = { Three };
}

/// A pass gives away its right to put the items of one server; all items are named by then.
pub struct GivesAway<K, W> {
    of: PhantomData<(K, W)>,
}

impl<T, K: Named<T>, W: Which> Split<Known<T>> for GivesAway<K, W> {
    ghost use Rattle.beet_queue.specs.Rule.{without, sender_of};

    ghost left = { without K.streams W.server };

    ghost right = { sender_of K.streams W.server };
}

/// A pass takes the rights of another.
pub struct TakesBack;

impl<T> Join<Known<T>> for TakesBack {
    ghost use Rattle.beet_queue.specs.Rule.{both, nothing_known};

    ghost both = { both };

    ghost spent = { nothing_known };
}

pub type Queue<T> = RuledArrayQueue<T, Known<T>, InOrder>;

pub type QueuePass<T> = Pass<T, Known<T>>;
