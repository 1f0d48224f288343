//! What goes over a link.

use beet_queue::FromServer;
use beet_round::RoundMessage;
use std::marker::Model;

/// A message on its way, in memory of its own: what moves is where it lies. Contracts see the message.
#[derive(Drop)]
pub struct Parcel {
    pub message: Box<RoundMessage>,
}

impl Model for Parcel {
    ghost use Rattle.beet_round.specs.declared.message.RoundMessage.{RoundMessage};

    ghost Value = { RoundMessage };

    ghost view = { λ p. p.message.value };
}

/// Over a link one server puts. Its queue knows it as the first.
impl FromServer for Parcel {
    ghost use Rattle.beet_field.specs.declared.point.Point.TheVariants.{One};

    ghost server = { λ _. One };
}
