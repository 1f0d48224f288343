//! One server of a world.

ghost use Rattle.std.specs.Prelude.{◌≡◌, ◌≤◌, ◌<◌, ◌+◌, ◌*◌, ◌++◌, ◌∷◌, [], ℕ, length, true, false, vec_capacity, IfOk};
ghost use Rattle.beet_delivery.specs.Networks.{Delivered};
ghost use Rattle.beet_weights.specs.Quadratics.{IsServer};
ghost use Rattle.beet_linear_sharing.specs.Runs.{Setup};
ghost use Rattle.beet_five_server.specs.Answers.{HandsOut};
ghost use Rattle.beet_five_server.specs.Cores.{is_quiet};
ghost use Rattle.beet_five_world.specs.Members.{Begins, Gives, IsMember, IsKept, verdict_at};

use beet_five_server::{FiveCore, FiveMessage};
use beet_gates::Script;
use beet_round::Verdict;
use std::alloc::{AllocError, Global};
use std::marker::Model;

/// Hands out the messages of a round, if they were not handed out before.
fn hand_out<S: Script<5>>(core: &mut FiveCore<S>, sent: &mut Vec<[FiveMessage; 4]>)
    requires { IsKept S.batch_of (S.rounds_of core.old.work.script) (vec_capacity sent.old)
        core.old (length sent.old.items) }
    ensures me { core.new.work.me ≡ core.old.work.me }
    ensures script { core.new.work.script ≡ core.old.work.script }
    ensures moved { is_quiet S.batch_of core.old.work ≡ false → HandsOut S.batch_of core.old core.new
        × (5 * (core.old.work.round + 2) ≤ length core.old.mail.places) }
    ensures kept { IsKept S.batch_of (S.rounds_of core.new.work.script) (vec_capacity sent.new)
        core.new (length sent.new.items) }
    ensures members { (o : Setup) (x : Delivered ℕ) → IsMember S.batch_of o x core.old sent.old.items
        → IsMember S.batch_of o x core.new sent.new.items }
    ensures same { is_quiet S.batch_of core.old.work ≡ true → (core.new ≡ core.old)
        × (sent.new.items ≡ sent.old.items) }
{
    if let Some(messages) = core.out() {
        sent.push_reserved(messages);
    }
}

/// A server of a world: its core, and the messages that it handed out.
#[derive(Drop)]
pub struct Member<S: Script<5>> {
    core: FiveCore<S>,
    sent: Vec<[FiveMessage; 4]>,
}

impl<S: Script<5>> Model for Member<S> {
    ghost use Rattle.std.specs.Prelude.{length, vec_capacity};
    ghost use Rattle.beet_five_world.specs.Members.{Seen, IsKept};

    ghost Value = { Seen S };

    ghost view = { λ m. record { core = m.core; sent = m.sent.items } };

    ghost invariant = { λ m. IsKept S.batch_of (S.rounds_of m.core.work.script) (vec_capacity m.sent)
        m.core (length m.sent.items) };
}

impl<S: Script<5>> Member<S> {
    /// A server from its core, which has passed no round and handed out nothing. It hands out its messages of round 0.
    pub fn begin(alloc: Global, core: FiveCore<S>) -> Result<Member<S>, AllocError>
        requires server { IsServer core.work.me }
        requires round { core.work.round ≡ 0 }
        requires handed { core.work.handed ≡ false }
        ensures { IfOk result (λ m. Begins S.batch_of core m) }
    {
        let mut sent = Vec::with_capacity(alloc, core.script().rounds() as usize)?;
        let mut core = core;
        hand_out(&mut core, &mut sent);
        hand_out(&mut core, &mut sent);
        Ok(Member { core, sent })
    }

    /// Gives the server a message, and takes what it then hands out.
    pub fn give(&mut self, m: FiveMessage) -> Verdict
        requires { is_quiet S.batch_of self.old.core.work ≡ true }
        ensures gives { Gives S.batch_of self.old self.new m }
        ensures me { self.new.core.work.me ≡ self.old.core.work.me }
        ensures script { self.new.core.work.script ≡ self.old.core.work.script }
        ensures verdict { result ≡ verdict_at S.batch_of self.old.core m }
    {
        let verdict = self.core.deliver(m);
        hand_out(&mut self.core, &mut self.sent);
        hand_out(&mut self.core, &mut self.sent);
        verdict
    }

    pub fn core(&self) -> &FiveCore<S>
        ensures { result.now ≡ self.now.core }
    {
        &self.core
    }

    /// The messages that it handed out, round by round.
    pub fn sent(&self) -> &[[FiveMessage; 4]]
        ensures { result.now ≡ self.now.sent }
    {
        self.sent.as_slice()
    }
}
