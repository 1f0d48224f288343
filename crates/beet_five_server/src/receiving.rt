//! What a server has received.

ghost use Rattle.std.specs.Prelude.{◌≡◌, ◌<◌, ℕ, IfSome, Some, length, option_map, true};
ghost use Rattle.beet_field.specs.declared.TheConstants.{MOST_NUMBERS};
ghost use Rattle.beet_delivery.specs.Networks.{Delivered};
ghost use Rattle.beet_weights.specs.Quadratics.{IsServer};
ghost use Rattle.beet_linear_sharing.specs.Runs.{Setup};
ghost use Rattle.beet_five_server.specs.Fits.{Fits};
ghost use Rattle.beet_five_server.specs.Network.{sends_to};
ghost use Rattle.beet_five_server.specs.Received.{numbers_from, received_from};
ghost use Rattle.beet_five_server.specs.Runs.{message};

use crate::mail::{Mail, place_of};
use crate::server::FiveCore;
use beet_field::Fe;
use beet_gates::Script;

impl Mail {
    /// The numbers of a sender in a round, if its message is there.
    fn received(&self, from: u32, round: u32) -> Option<&[Fe]>
        requires { IsServer from }
        ensures { option_map (λ numbers. numbers.now) result ≡ numbers_from self.now from round }
    {
        match self.places.get(place_of(round, from)) {
            Some(Some(message)) => Some(message.numbers.as_slice()),
            _ => None,
        }
    }
}

impl<S: Script<5>> FiveCore<S> {
    /// The numbers that server `from`, 1 to 5, sent to this one in a round, from 0, in order; and this one's own to
    /// itself, once the round's messages are handed out. None if they did not come. In each round that a server has
    /// passed, it has those of all four peers.
    pub fn received(&self, from: u32, round: u32) -> Option<&[Fe]>
        requires { IsServer from }
        ensures numbers { option_map (λ numbers. numbers.now) result ≡ received_from self.now from round }
        ensures passed { (o : Setup) (x : Delivered ℕ) → Fits S.batch_of o x self.now.work self.now.mail →
            sends_to from self.now.work.me ≡ true → round < self.now.work.round →
            option_map (λ numbers. numbers.now) result ≡ Some (message o from self.now.work.me round) }
    {
        self.mail.received(from, round)
    }
}
