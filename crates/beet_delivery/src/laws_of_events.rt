//! What holds of every set of delivered messages, and after every list of events: any order, with
//! repeats, and with messages that come late or never.
ghost use Rattle.std.specs.Prelude.{◌≡◌, ◌≢◌, ◌<◌, ◌≤◌, ◌+◌, ◌==◌, ◌&&◌, not, if◌then◌else◌, ℕ, List, ◌∷◌, ◌++◌, Bool};
ghost use Rattle.std.specs.Prelude.{true, false, All, AllPairs, count_by};
ghost use Rattle.beet_field.specs.declared.point.Point.{Point};
ghost use Rattle.beet_field.specs.declared.point.Point.TheVariants.{One, Two, Three};
ghost use Rattle.beet_round.specs.Sides.{peer};
ghost use Rattle.beet_round.specs.declared.sides.Side.{Side};
ghost use Rattle.beet_delivery.specs.Events.{Triple, Delivered, nothing, same, has, with_triple, passed, is_sent};
ghost use Rattle.beet_delivery.specs.Events.{after, after_from, adding, all_triples, listed, undelivered};
ghost use Rattle.beet_delivery.specs.Events.{all_delivered};
ghost use Rattle.beet_delivery.specs.Examples.{eight_events, four_added};

/// After every list of events no two servers are more than one round apart, each delivered message
/// was sent, and what was delivered after a front of the list is delivered after the whole.
pub fn rounds_stay_close()
    ensures apart { (rounds : ℕ) (es : List Triple) (s other : Point) →
        passed rounds (after rounds es) s ≤ passed rounds (after rounds es) other + 1 }
    ensures sent { (rounds : ℕ) (es : List Triple) (from to : Point) (t : ℕ) →
        after rounds es from to t ≡ true →
        (from ≢ to) × ((t < rounds) × (t ≤ passed rounds (after rounds es) from)) }
    ensures grows { (rounds : ℕ) (front es : List Triple) (from to : Point) (t : ℕ) →
        after rounds front from to t ≡ true → after rounds (front ++ es) from to t ≡ true }
{}

/// Nothing is undelivered exactly if each server has passed all rounds, and so if each
/// message that is sent is delivered. After a list of events all messages of the run are delivered
/// then, and no others.
pub fn nothing_undelivered_means_ended()
    ensures ended { (rounds : ℕ) (x : Delivered) → undelivered rounds x ≡ 0 →
        (s : Point) → passed rounds x s ≡ rounds }
    ensures none { (rounds : ℕ) (x : Delivered) → ((s : Point) → passed rounds x s ≡ rounds) →
        undelivered rounds x ≡ 0 }
    ensures some { (rounds : ℕ) (x : Delivered) (s : Point) → passed rounds x s ≢ rounds →
        1 ≤ undelivered rounds x }
    ensures delivered { (rounds : ℕ) (x : Delivered) →
        ((e : Triple) → is_sent rounds x e ≡ true → has x e ≡ true) →
        (s : Point) → passed rounds x s ≡ rounds }
    ensures all { (rounds : ℕ) (es : List Triple) → undelivered rounds (after rounds es) ≡ 0 →
        (from to : Point) (t : ℕ) → after rounds es from to t ≡ all_delivered rounds from to t }
{}

/// In a set of messages that were sent, one more that is sent and was not in it is one fewer
/// undelivered, and each message that is sent by this is one more. So if none is, it is one
/// fewer.
pub fn a_delivery_counts_down()
    ensures counts { (rounds : ℕ) (x : Delivered) (e : Triple) →
        ((d : Triple) → has x d ≡ true → is_sent rounds x d ≡ true) →
        is_sent rounds x e ≡ true → has x e ≡ false →
        undelivered rounds (with_triple x e) + 1 ≡ undelivered rounds x +
        count_by (λ d. is_sent rounds (with_triple x e) d && not (is_sent rounds x d))
        (all_triples rounds) }
    ensures fewer { (rounds : ℕ) (x : Delivered) (e : Triple) →
        ((d : Triple) → has x d ≡ true → is_sent rounds x d ≡ true) →
        is_sent rounds x e ≡ true → has x e ≡ false →
        ((d : Triple) → is_sent rounds (with_triple x e) d ≡ true → is_sent rounds x d ≡ true) →
        undelivered rounds (with_triple x e) + 1 ≡ undelivered rounds x }
{}

/// A message that comes again changes nothing, and neither does one that was not sent. So a list of
/// events gives what the events give that add a message: no message stands twice among these, and
/// each was sent when it was added, and not in the set before. How many rounds a server has passed
/// is by definition a function of the set alone.
pub fn repeats_change_nothing()
    ensures repeat { (x : Delivered) (e : Triple) → has x e ≡ true → with_triple x e ≡ x }
    ensures events { (rounds : ℕ) (x : Delivered) (es : List Triple) →
        after_from rounds x es ≡ after_from rounds x (adding rounds x es) }
    ensures whole { (rounds : ℕ) (es : List Triple) →
        after rounds es ≡ after rounds (adding rounds nothing es) }
    ensures once { (rounds : ℕ) (x : Delivered) (es : List Triple) →
        AllPairs (λ a b. a ≢ b) (adding rounds x es) }
    ensures added { (rounds : ℕ) (x : Delivered) (es front back : List Triple) (e : Triple) →
        adding rounds x es ≡ front ++ e ∷ back →
        (is_sent rounds (after_from rounds x front) e ≡ true)
        × (has (after_from rounds x front) e ≡ false) }
{}

/// The list of a set has each of its messages of the run once, and nothing that is not in it. So
/// after two lists of events the sets are the same if their lists are.
pub fn a_set_is_told_by_its_list()
    ensures once { (rounds : ℕ) (x : Delivered) (e : Triple) → e.from ≢ e.to → e.round < rounds →
        count_by (λ d. same d.from e.from && same d.to e.to && (d.round == e.round))
        (listed rounds x) ≡ (if has x e then 1 else 0) }
    ensures only { (rounds : ℕ) (x : Delivered) → All (λ d. has x d ≡ true) (listed rounds x) }
    ensures told { (rounds : ℕ) (es others : List Triple) →
        listed rounds (after rounds es) ≡ listed rounds (after rounds others) →
        after rounds es ≡ after rounds others }
{}

/// The rounds that a server has passed are the largest number, of all rounds at most, such that
/// both messages to it of each round below are delivered.
pub fn passed_is_the_largest()
    ensures most { (rounds : ℕ) (x : Delivered) (s : Point) → passed rounds x s ≤ rounds }
    ensures both { (rounds : ℕ) (x : Delivered) (s : Point) (t : ℕ) → t < passed rounds x s →
        (side : Side) → x (peer s side) s t ≡ true }
    ensures largest { (rounds : ℕ) (x : Delivered) (s : Point) (t : ℕ) → t ≤ rounds →
        ((r : ℕ) → r < t → (side : Side) → x (peer s side) s r ≡ true) → t ≤ passed rounds x s }
{}

/// After every list of events, each message that is sent is of a round that its receiver has passed, or of the first
/// round that it has not passed, or of the next.
pub fn sent_messages_come_close()
    ensures { (rounds : ℕ) (es : List Triple) (e : Triple) →
        is_sent rounds (after rounds es) e ≡ true →
        e.round ≤ passed rounds (after rounds es) e.to + 1 }
{}

/// Eight events in a run of two rounds, with a repeat, messages that are not sent yet and one to its
/// own sender: what they add, its list, the rounds passed and what is undelivered. Then all twelve
/// messages, by round, and none, where six are sent.
pub fn delivery_example()
    ensures adds { adding 2 nothing eight_events ≡ four_added }
    ensures lists { listed 2 (after 2 eight_events) ≡ four_added }
    ensures first { passed 2 (after 2 eight_events) One ≡ 1 }
    ensures second { passed 2 (after 2 eight_events) Two ≡ 0 }
    ensures third { passed 2 (after 2 eight_events) Three ≡ 0 }
    ensures four_left { undelivered 2 (after 2 eight_events) ≡ 4 }
    ensures all_passed { passed 2 (after 2 (all_triples 2)) Three ≡ 2 }
    ensures none_left { undelivered 2 (after 2 (all_triples 2)) ≡ 0 }
    ensures sent { undelivered 2 nothing ≡ 6 }
{}
