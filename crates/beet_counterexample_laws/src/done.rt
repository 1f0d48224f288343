//! Runs in which a command is done, and one in which two books are refused.

ghost use Rattle.std.specs.Prelude.{◌≡◌, ◌≢◌, ℕ, List, [], ◌∷◌, None, Some, codes};
ghost use Rattle.beet_store.specs.Files.{File};
ghost use Rattle.beet_world.specs.declared.schedule.Delivery.{Delivery};
ghost use Rattle.beet_load.specs.Loading.{AuctionWithBidders, loaded_errand};
ghost use Rattle.beet_load.specs.Wholes.{limited_errand};
ghost use Rattle.beet_errand.specs.Overs.{ReadsTo};
ghost use Rattle.beet_two_books.specs.declared.agreeing.MapFault.{MapFault};
ghost use Rattle.beet_job_five_worlds.specs.Ending.{difference_for_two};
ghost use Rattle.beet_job_five_worlds.specs.Reading.{BothOfFive, both_errand, second_book};
ghost use Rattle.beet_app.specs.Jobs.{job_of, two_of_five};
ghost use Rattle.beet_program_laws.specs.Accepted.{audit_words, witness_words};
ghost use Rattle.beet_program_laws.specs.Again.{record_words};
ghost use Rattle.beet_program_laws.specs.Commands.{five_worlds_words};
ghost use Rattle.beet_completeness_laws.specs.Complete.{CanAudit, CanClear, CanCompare, CanOpen, CanRehearse};
ghost use Rattle.beet_completeness_laws.specs.Complete.{CanCompareForTwo, CanRunFive, CanRunTrial, CanSeal, CanTally};
ghost use Rattle.beet_completeness_laws.specs.Complete.{CanWitness};
ghost use Rattle.beet_counterexample_laws.specs.HasRun.{HasRun, HasRunTo};

/// The laws of completeness and of commands are not empty: what is right for a command has a run that ends with status
/// 0, in which the outside answers every call.
pub fn what_is_right_has_a_run()
    ensures tally { (files : List File) (auction book : List ℕ) →
        job_of (codes "tally" ∷ auction ∷ book ∷ []) ≢ None →
        CanTally files auction book → HasRun files (codes "tally" ∷ auction ∷ book ∷ []) }
    ensures clear { (files : List File) (auction servers book : List ℕ) →
        job_of (codes "clear" ∷ auction ∷ servers ∷ book ∷ []) ≢ None →
        CanClear files (loaded_errand auction servers book) →
        HasRun files (codes "clear" ∷ auction ∷ servers ∷ book ∷ []) }
    ensures watch { (files : List File) (auction servers book : List ℕ) →
        job_of (codes "watch" ∷ auction ∷ servers ∷ book ∷ []) ≢ None →
        CanClear files (loaded_errand auction servers book) →
        HasRun files (codes "watch" ∷ auction ∷ servers ∷ book ∷ []) }
    ensures five { (files : List File) (auction servers book : List ℕ) →
        job_of (codes "five" ∷ auction ∷ servers ∷ book ∷ []) ≢ None →
        CanRunFive files auction servers book → HasRun files (codes "five" ∷ auction ∷ servers ∷ book ∷ []) }
    ensures rehearse { (files : List File) (auction servers book name : List ℕ) (loaded : AuctionWithBidders)
        (schedule : List Delivery) → job_of (codes "rehearse" ∷ auction ∷ servers ∷ book ∷ name ∷ []) ≢ None →
        CanRehearse files auction servers book name loaded schedule →
        HasRun files (codes "rehearse" ∷ auction ∷ servers ∷ book ∷ name ∷ []) }
    ensures recorded { (files : List File) (auction servers book out : List ℕ) →
        job_of (record_words auction servers book out) ≢ None →
        CanClear files (limited_errand auction servers book) → HasRun files (record_words auction servers book out) }
    ensures seal { (files : List File) (auction bid source out : List ℕ) →
        job_of (codes "seal" ∷ auction ∷ bid ∷ source ∷ out ∷ []) ≢ None →
        CanSeal files auction bid source → HasRun files (codes "seal" ∷ auction ∷ bid ∷ source ∷ out ∷ []) }
    ensures opened { (files : List File) (auction servers list : List ℕ) →
        job_of (codes "open" ∷ auction ∷ servers ∷ list ∷ []) ≢ None →
        CanOpen files auction servers list → HasRun files (codes "open" ∷ auction ∷ servers ∷ list ∷ []) }
    ensures witness { (files : List File) (auction servers list out : List ℕ) →
        job_of (witness_words auction servers list out) ≢ None →
        CanWitness files auction servers list → HasRun files (witness_words auction servers list out) }
    ensures trial { (files : List File) (first second : List ℕ) →
        CanRunTrial first second → HasRun files (codes "trial" ∷ first ∷ second ∷ []) }
    ensures worlds { (files : List File) (auction servers book1 book2 server out : List ℕ) →
        job_of (codes "worlds" ∷ auction ∷ servers ∷ book1 ∷ book2 ∷ server ∷ out ∷ []) ≢ None →
        CanCompare files auction servers book1 book2 server →
        HasRun files (codes "worlds" ∷ auction ∷ servers ∷ book1 ∷ book2 ∷ server ∷ out ∷ []) }
    ensures five_worlds { (files : List File) (auction servers book1 book2 one other out : List ℕ) →
        job_of (five_worlds_words auction servers book1 book2 one other out) ≢ None →
        CanCompareForTwo files auction servers book1 book2 one other →
        HasRun files (five_worlds_words auction servers book1 book2 one other out) }
    ensures audit { (files : List File) (auction one two three : List ℕ) →
        job_of (audit_words auction one two three) ≢ None →
        CanAudit files auction one two three → HasRun files (audit_words auction one two three) }
{}

/// Nor is what is said of a refusal: two books that are read, and that something tells apart for two of five servers,
/// have a run that ends with status 7, in which the outside answers every call.
pub fn what_two_servers_tell_apart_has_a_run()
    ensures { (files : List File) (auction servers book1 book2 one other out : List ℕ) (two : ℕ × ℕ)
        (both : BothOfFive) (fault : MapFault) →
        job_of (five_worlds_words auction servers book1 book2 one other out) ≢ None →
        two_of_five one other ≡ Some two → ReadsTo files (both_errand auction servers book1 book2) both →
        difference_for_two two.0 two.1 both.first.book (second_book both) ≡ Some fault →
        HasRunTo files (five_worlds_words auction servers book1 book2 one other out) 7 }
{}
