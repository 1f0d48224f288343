//! What holds of five servers after every list of events.

ghost use Rattle.std.specs.Prelude.{◌≡◌, ◌≤◌, ◌+◌, ◌-◌, ℕ, List, true};
ghost use Rattle.beet_delivery.specs.Networks.{Delivered, Triple, after, nothing, undelivered};
ghost use Rattle.beet_gates.specs.declared.Batch.{Batch};
ghost use Rattle.beet_weights.specs.Quadratics.{IsServer};
ghost use Rattle.beet_linear_sharing.specs.Runs.{Setup};
ghost use Rattle.beet_five_server.specs.Cores.{has_ended};
ghost use Rattle.beet_five_server.specs.Network.{five};
ghost use Rattle.beet_five_server.specs.Runs.{shared_at};
ghost use Rattle.beet_five_world.specs.Members.{AllFit, IsAt, LeadAll, Seen};

/// After every list of events each server fits the run and the messages that the list has delivered.
pub fn servers_stand_after_all_events<S>()
    ensures { (next : S → ℕ → List ℕ → Batch) (old new : List (Seen S)) (es : List (Triple ℕ)) →
        LeadAll next old es new → (script : S) (o : Setup) (rounds : ℕ) → AllFit next script o rounds nothing old →
        AllFit next script o rounds (after five rounds es) new }
{}

/// No two servers of a world are more than one round apart. If nothing is undelivered, all five have ended, with all
/// rounds of the run passed and the numbers opened that the run opens.
pub fn five_servers_end_alike<S>()
    ensures apart { (next : S → ℕ → List ℕ → Batch) (script : S) (o : Setup) (rounds : ℕ) (x : Delivered ℕ)
        (ms : List (Seen S)) (s other : ℕ) (a b : Seen S) → AllFit next script o rounds x ms → IsServer s →
        IsServer other → IsAt ms (s - 1) a → IsAt ms (other - 1) b →
        a.core.work.round ≤ b.core.work.round + 1 }
    ensures ended { (next : S → ℕ → List ℕ → Batch) (script : S) (o : Setup) (rounds : ℕ) (x : Delivered ℕ)
        (ms : List (Seen S)) (s : ℕ) (a : Seen S) → AllFit next script o rounds x ms →
        undelivered five rounds x ≡ 0 → IsServer s → IsAt ms (s - 1) a →
        (has_ended next a.core.work ≡ true) × (a.core.work.round ≡ rounds)
        × (a.core.work.opened ≡ (shared_at o rounds).opened) }
{}
