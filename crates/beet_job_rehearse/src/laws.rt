//! What the lines of a rehearsal say once every message is delivered.

ghost use Rattle.std.specs.Prelude.{◌≡◌, ℕ};
ghost use Rattle.beet_plan.specs.declared.Finish.{Finish};
ghost use Rattle.beet_delivery.specs.Events.{Delivered, undelivered};
ghost use Rattle.beet_job_rehearse.specs.Standings.{ended_alike, rehearsal_of};

/// If nothing is undelivered, all three servers have ended, each with the end of the run.
pub fn nothing_undelivered_tells_the_end()
    ensures { (finish : Finish) (rounds : ℕ) (x : Delivered) → undelivered rounds x ≡ 0 →
        rehearsal_of finish rounds x ≡ ended_alike finish }
{}
