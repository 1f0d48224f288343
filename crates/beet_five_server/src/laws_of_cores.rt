//! What holds of every list of events among five servers, and of every core that fits a run.

ghost use Rattle.std.specs.Prelude.{◌≡◌, ◌↔◌, ◌≤◌, ◌<◌, ◌+◌, ℕ, List, true};
ghost use Rattle.beet_delivery.specs.Networks.{Triple, Delivered, after, passed, undelivered, with_triple};
ghost use Rattle.beet_gates.specs.declared.Batch.{Batch};
ghost use Rattle.beet_weights.specs.Quadratics.{IsServer};
ghost use Rattle.beet_linear_sharing.specs.Runs.{Setup};
ghost use Rattle.beet_five_server.specs.Runs.{HasRounds};
ghost use Rattle.beet_five_server.specs.Cores.{Work, has_ended, is_quiet};
ghost use Rattle.beet_five_server.specs.Fits.{Fits};
ghost use Rattle.beet_five_server.specs.Mails.{Mailbag};
ghost use Rattle.beet_five_server.specs.Network.{five, sends_to};

/// After every list of events no two servers are more than one round apart, and each delivered
/// message was sent.
pub fn rounds_stay_close()
    ensures apart { (rounds : ℕ) (es : List (Triple ℕ)) (s other : ℕ) → IsServer s → IsServer other →
        passed five rounds (after five rounds es) s ≤ passed five rounds (after five rounds es) other + 1 }
    ensures sent { (rounds : ℕ) (es : List (Triple ℕ)) (from to t : ℕ) → after five rounds es from to t ≡ true →
        (sends_to from to ≡ true) × ((t < rounds) × (t ≤ passed five rounds (after five rounds es) from)) }
{}

/// If nothing is undelivered, each server has passed all rounds.
pub fn nothing_undelivered_means_ended()
    ensures { (rounds : ℕ) (x : Delivered ℕ) → undelivered five rounds x ≡ 0 →
        (s : ℕ) → passed five rounds x s ≡ rounds }
{}

/// A core that fits a run and has handed out its messages, or has ended, is at the rounds that its
/// server has passed. It has ended exactly if it has passed all rounds. What is delivered to
/// others changes nothing at it.
pub fn a_quiet_core_is_at_its_passed_rounds<S>()
    ensures quiet { (next : S → ℕ → List ℕ → Batch) (o : Setup) (x : Delivered ℕ) (w : Work S) (bag : Mailbag)
        (rounds : ℕ) →
        HasRounds o rounds → IsServer w.me → Fits next o x w bag → is_quiet next w ≡ true →
        w.round ≡ passed five rounds x w.me }
    ensures ended { (next : S → ℕ → List ℕ → Batch) (o : Setup) (x : Delivered ℕ) (w : Work S) (bag : Mailbag)
        (rounds : ℕ) →
        HasRounds o rounds → IsServer w.me → Fits next o x w bag → (has_ended next w ≡ true) ↔ (w.round ≡ rounds) }
    ensures away { (next : S → ℕ → List ℕ → Batch) (o : Setup) (x : Delivered ℕ) (w : Work S) (bag : Mailbag)
        (e : Triple ℕ) →
        (e.to ≡ w.me → ⊥) → Fits next o x w bag → Fits next o (with_triple five x e) w bag }
{}
