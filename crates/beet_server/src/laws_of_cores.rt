//! What holds of every core that fits a run and a set of delivered messages, and how servers end.
ghost use Rattle.std.specs.Prelude.{◌≡◌, ◌≢◌, ◌↔◌, ◌≤◌, ◌+◌, ℕ, List, true, false, Option};
ghost use Rattle.beet_field.specs.declared.point.Point.{Point};
ghost use Rattle.beet_gates.specs.declared.Batch.{Batch};
ghost use Rattle.beet_round.specs.Sides.{peer};
ghost use Rattle.beet_round.specs.declared.sides.Side.{Side};
ghost use Rattle.beet_sharing.specs.Runs.{Setup, HasRounds, shared_at};
ghost use Rattle.beet_server.specs.Endings.{Ends, ending_of};
ghost use Rattle.beet_delivery.specs.Events.{Triple, Delivered, same, with_triple, passed, undelivered};
ghost use Rattle.beet_server.specs.Answers.{Keeps, Moves};
ghost use Rattle.beet_server.specs.Cores.{Core, has_ended, is_quiet};
ghost use Rattle.beet_server.specs.Fits.{Fits};

/// If nothing is undelivered, all three servers have ended, each with what the script names
/// after the opened numbers of the run.
pub fn all_end_alike<F>()
    ensures { (finish : List ℕ → Option F) (o : Setup) (rounds : ℕ) (x : Delivered) →
        undelivered rounds x ≡ 0 → (s : Point) →
        ending_of finish o rounds x s ≡ Ends (finish (shared_at o rounds).opened) }
{}

/// A core that fits a run, whatever its script, has passed no more rounds than the set gives its
/// server, and one fewer at most. Once it has handed out its messages, or has ended, it has passed
/// just as many. It has ended exactly if it has passed all rounds.
pub fn a_core_that_has_sent_is_at_its_passed_rounds<S>()
    ensures quiet { (next : S → ℕ → List ℕ → Batch) (o : Setup) (x : Delivered) (c : Core S)
        (rounds : ℕ) → HasRounds o rounds → Fits next o x c → is_quiet next c ≡ true →
        c.round ≡ passed rounds x c.me }
    ensures behind { (next : S → ℕ → List ℕ → Batch) (o : Setup) (x : Delivered) (c : Core S)
        (rounds : ℕ) → HasRounds o rounds → Fits next o x c →
        (c.round ≤ passed rounds x c.me) × (passed rounds x c.me ≤ c.round + 1) }
    ensures within { (next : S → ℕ → List ℕ → Batch) (o : Setup) (x : Delivered) (c : Core S)
        (rounds : ℕ) → HasRounds o rounds → Fits next o x c → c.round ≤ rounds }
    ensures ended { (next : S → ℕ → List ℕ → Batch) (o : Setup) (x : Delivered) (c : Core S)
        (rounds : ℕ) → HasRounds o rounds → Fits next o x c →
        (has_ended next c ≡ true) ↔ (c.round ≡ rounds) }
{}

/// A core that fits a run hands out messages at most twice with nothing delivered in between: if
/// it is not quiet, and still not quiet once it has handed out, it is quiet once it has handed out
/// again.
pub fn messages_go_out_at_most_twice<S>()
    ensures { (next : S → ℕ → List ℕ → Batch) (o : Setup) (x : Delivered) (c d e : Core S) →
        Fits next o x c → is_quiet next c ≡ false → Keeps c d → Moves c d →
        Fits next o x d → is_quiet next d ≡ false → Keeps d e → Moves d e →
        Fits next o x e → is_quiet next e ≡ true }
{}

/// What is delivered to other servers changes nothing at a core: it fits with each set that has the
/// same messages to its server, and so with one message more to another.
pub fn deliveries_elsewhere_change_nothing<S>()
    ensures same { (next : S → ℕ → List ℕ → Batch) (o : Setup) (x y : Delivered) (c : Core S) →
        ((side : Side) (t : ℕ) → y (peer c.me side) c.me t ≡ x (peer c.me side) c.me t) →
        Fits next o x c → Fits next o y c }
    ensures away { (next : S → ℕ → List ℕ → Batch) (o : Setup) (x : Delivered) (c : Core S)
        (e : Triple) → e.to ≢ c.me → Fits next o x c → Fits next o (with_triple x e) c }
{}
