//! A queue of several senders and one receiver: the rule that what each sender puts is named before, and arrives in its
//! order, whole and once.
#![tactic(auto)]

mod rule;

pub use rule::{
    FromServer, GivesAway, Known, Named, Puts, Queue, QueuePass, Takes, TakesBack, ToOne, ToThree,
    ToTwo, Which,
};
