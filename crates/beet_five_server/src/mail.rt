//! The messages to a server, and what it says of one.

ghost use Rattle.std.specs.Prelude.{◌≡◌, ◌<◌, ◌≤◌, ◌+◌, ◌-◌, ◌*◌, ◌^◌, ℕ, IfOk, None, is_some, true, length, replicate};
ghost use Rattle.std.specs.Prelude.{slice_index_or};
ghost use Rattle.beet_field.specs.declared.TheConstants.{MOST_NUMBERS};
ghost use Rattle.beet_weights.specs.Quadratics.{IsServer};
ghost use Rattle.beet_five_server.specs.Network.{is_server};
ghost use Rattle.beet_five_server.specs.Mails.{all_there, cell, kept, left_by, numbers_at, place_of, put, verdict_of};
ghost use Rattle.beet_five_server.specs.Mails.{Mailbag, Turned};

use arrayvec::ArrayVec;
use beet_field::{Fe, MOST_NUMBERS};
use beet_round::Verdict;
use std::alloc::{AllocError, Global};
use std::marker::Model;

/// What one server of five sends to another in a round.
#[derive(Debug, Drop)]
pub struct FiveMessage {
    /// The sender.
    pub from: u32,
    /// The receiver.
    pub to: u32,
    /// The round, from 0.
    pub round: u32,
    /// The sender's numbers of that round for the receiver, in order.
    pub numbers: ArrayVec<Fe, MOST_NUMBERS>,
}

impl FiveMessage {
    /// An equal message.
    pub fn copy(&self) -> FiveMessage
        ensures { result ≡ self.now }
    {
        let mut numbers = ArrayVec::new();
        if numbers
            .try_extend_from_slice(self.numbers.as_slice())
            .is_err()
        {
            unreachable!();
        }
        FiveMessage {
            from: self.from,
            to: self.to,
            round: self.round,
            numbers,
        }
    }
}

/// A place for each round and sender.
#[derive(Drop)]
pub struct Mail {
    me: u32,
    round: u32,
    want: u32,
    pub(crate) places: Vec<Option<FiveMessage>>,
}

impl Model for Mail {
    ghost use Rattle.beet_five_server.specs.Mails.{Mailbag, IsSound};

    ghost Value = { Mailbag };

    ghost view = { λ b. record { me = b.me; round = b.round; want = b.want; places = b.places.items } };

    ghost invariant = { λ b. IsSound (record { me = b.me; round = b.round; want = b.want; places = b.places.items }) };
}

/// Places for so many rounds and two more.
fn empty_places(alloc: Global, rounds: u32) -> Result<Vec<Option<FiveMessage>>, AllocError>
    ensures { IfOk result (λ v. v.items ≡ replicate (5 * (rounds + 2)) None) }
{
    let count = 5 * (rounds as usize + 2);
    let mut places = Vec::with_capacity(alloc, count)?;
    for _ in 0..count {
        places.push_reserved(None);
    }
    Ok(places)
}

/// The place of a message.
pub(crate) fn place_of(round: u32, from: u32) -> usize
    requires { 1 ≤ from }
    ensures { result ≡ place_of round from }
{
    5 * round as usize + (from as usize - 1)
}

/// Whether a number is that of a server.
fn is_server(i: u32) -> bool
    ensures { result ≡ is_server i }
{
    1 <= i && i <= 5
}

impl Mail {
    /// No message, at round 0, which wants messages of `want` numbers.
    pub fn new(alloc: Global, me: u32, rounds: u32, want: u32) -> Result<Mail, AllocError>
        requires { want ≤ MOST_NUMBERS }
        ensures { IfOk result (λ b.
            b ≡ record { me = me; round = 0; want = want; places = replicate (5 * (rounds + 2)) None }) }
    {
        let places = empty_places(alloc, rounds)?;
        Ok(Mail {
            me,
            round: 0,
            want,
            places,
        })
    }

    /// Whether the message of the sender in the round is there.
    pub fn is_filled(&self, round: u32, from: u32) -> bool
        requires from { IsServer from }
        requires near { round ≤ self.now.round + 1 }
        ensures { result ≡ is_some (cell self.now.places round from) }
    {
        self.places[place_of(round, from)].is_some()
    }

    /// Whether all five messages of the round are there.
    pub fn ready(&self) -> bool
        ensures { result ≡ all_there self.now.places self.now.round }
    {
        self.is_filled(self.round, 1)
            && self.is_filled(self.round, 2)
            && self.is_filled(self.round, 3)
            && self.is_filled(self.round, 4)
            && self.is_filled(self.round, 5)
    }

    /// The numbers of the round from the sender. All five messages of the round are there.
    pub fn numbers(&self, from: u32) -> &[Fe]
        requires from { IsServer from }
        requires all { all_there self.now.places self.now.round ≡ true }
        ensures numbers { result.now ≡ numbers_at self.now from }
        ensures length { length result.now ≡ self.now.want }
    {
        match &self.places[place_of(self.round, from)] {
            Some(message) => message.numbers.as_slice(),
            None => unreachable!(),
        }
    }

    /// Puts the message in its place, which is of this round or the next.
    fn put(&mut self, m: FiveMessage)
        requires from { IsServer m.from }
        requires round { (self.old.round ≤ m.round) × (m.round ≤ self.old.round + 1) }
        requires wanted { m.round ≡ self.old.round → length m.numbers.items ≡ self.old.want }
        ensures { self.new ≡ put self.old m }
    {
        let place = place_of(m.round, m.from);
        self.places[place] = Some(m);
    }

    /// Puts the message in its place, or says why not. A message of the next round may have any length.
    pub fn offer(&mut self, m: FiveMessage) -> Verdict
        ensures verdict { result ≡ verdict_of self.old m }
        ensures leaves { self.new ≡ left_by result self.old m }
        ensures room { 5 * (self.old.round + 2) ≤ length self.old.places }
    {
        if m.to != self.me || m.from == self.me || !is_server(m.from) {
            return Verdict::Stranger;
        }
        if m.round < self.round {
            return Verdict::Old;
        }
        if m.round - self.round > 1 {
            return Verdict::TooEarly(self.round);
        }
        if self.is_filled(m.round, m.from) {
            return Verdict::Repeat;
        }
        let length = m.numbers.len() as u32;
        let due = m.round == self.round;
        if due && length != self.want {
            return Verdict::WrongLength(length);
        }
        self.put(m);
        if due && self.ready() {
            Verdict::Ready
        } else {
            Verdict::Stored
        }
    }

    /// Puts the server's own message of the round in its place.
    pub fn put_own(&mut self, m: FiveMessage)
        requires from { (m.from ≡ self.old.me) × IsServer m.from }
        requires round { m.round ≡ self.old.round }
        requires wanted { length m.numbers.items ≡ self.old.want }
        ensures { self.new ≡ put self.old m }
    {
        self.put(m);
    }
}

/// Empties a place whose message has not so many numbers.
fn keep(places: &mut Vec<Option<FiveMessage>>, place: usize, want: u32)
    requires { place < length places.old.items }
    ensures at { slice_index_or places.new.items place None ≡ kept want (slice_index_or places.old.items place None) }
    ensures others { (k : ℕ) → (k ≡ place → ⊥) →
        slice_index_or places.new.items k None ≡ slice_index_or places.old.items k None }
    ensures length { length places.new.items ≡ length places.old.items }
{
    let fits = match &places[place] {
        Some(message) => message.numbers.len() == want as usize,
        None => true,
    };
    if !fits {
        places[place] = None;
    }
}

/// Empties the places of a round whose messages have not so many numbers.
fn keep_round(places: &mut Vec<Option<FiveMessage>>, round: u32, want: u32)
    requires { 5 * (round + 1) ≤ length places.old.items }
    ensures round { (j : ℕ) → IsServer j → cell places.new.items round j ≡ kept want (cell places.old.items round j) }
    ensures others { (t j : ℕ) → IsServer j → (t ≡ round → ⊥) → cell places.new.items t j ≡ cell places.old.items t j }
    ensures length { length places.new.items ≡ length places.old.items }
{
    keep(places, place_of(round, 1), want);
    keep(places, place_of(round, 2), want);
    keep(places, place_of(round, 3), want);
    keep(places, place_of(round, 4), want);
    keep(places, place_of(round, 5), want);
}

impl Mail {
    /// Moves to the next round, which wants messages of `want` numbers. An early message of another length is dropped.
    pub fn turn(&mut self, want: u32)
        requires wanted { want ≤ MOST_NUMBERS }
        requires room { 5 * (self.old.round + 3) ≤ length self.old.places }
        requires counted { self.old.round < 2 ^ 32 - 1 }
        ensures { Turned self.old self.new want }
    {
        self.round += 1;
        keep_round(&mut self.places, self.round, want);
        self.want = want;
    }
}
