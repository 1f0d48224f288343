//! Premises without which a law is false.

ghost use Rattle.std.specs.Prelude.{◌≡◌, ℕ, List, [], ◌∷◌, true};
ghost use Rattle.beet_store.specs.Files.{Told};
ghost use Rattle.beet_store.specs.Desks.{DeskTold};
ghost use Rattle.beet_errand.specs.declared.answer.Refusal.{Refusal};
ghost use Rattle.beet_errand.specs.declared.answer.Status.TheVariants.{Refused};
ghost use Rattle.beet_command.specs.Words.{are_names};
ghost use Rattle.beet_app.specs.Jobs.{job_of};
ghost use Rattle.beet_app_laws.specs.Calls.{RunsJobOf};
ghost use Rattle.beet_app_laws.specs.Dues.{EndsAsDue, IsDue};
ghost use Rattle.beet_app_laws.specs.Recorded.{RecordsJob};
ghost use Rattle.beet_counterexample_laws.specs.Needed.{longer_call, short_call, tally_words, untold_call};

/// The laws of `beet_app_laws` are false without their premises: if its answers are not of the files, a tally of no
/// files may end with 5 though 3 is due; and at the statuses 1 and 4 the record need not be of an answer.
pub fn the_premises_are_needed()
    ensures answers { (auction book : List ℕ) → are_names (auction ∷ book ∷ []) ≡ true →
        RunsJobOf (tally_words auction book) (longer_call auction)
        × IsDue [] (job_of (tally_words auction book)) (Refused Refusal.ReadFault)
        × (EndsAsDue (Refused Refusal.ReadFault) (longer_call auction).status → ⊥) }
    ensures memory { (words : List (List ℕ)) (told : Told) (desk : DeskTold) →
        RunsJobOf words (short_call told desk) × (RecordsJob (job_of words) (short_call told desk) → ⊥) }
    ensures write { (told : Told) → RunsJobOf [] (untold_call told) × (RecordsJob (job_of []) (untold_call told) → ⊥) }
{}
