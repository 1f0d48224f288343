//! Each command ends with status 0 if its files are in order, no call of the outside fails and memory suffices: the
//! contracts of functions that do nothing.
#![tactic(auto)]

ghost use Rattle.std.specs.Prelude.{◌≡◌, ℕ, List, [], ◌∷◌, codes};
ghost use Rattle.beet_store.specs.Files.{File};
ghost use Rattle.beet_forms.specs.Faults.{Reading};
ghost use Rattle.beet_bids.specs.Outcomes.{outcome_of};
ghost use Rattle.beet_book.specs.Farmers.{book_with};
ghost use Rattle.beet_plan.specs.Runs.{finish_of};
ghost use Rattle.beet_delivery.specs.Events.{after, undelivered};
ghost use Rattle.beet_auction.specs.Endings.{book_rounds};
ghost use Rattle.beet_world.specs.Worlds.{named_in};
ghost use Rattle.beet_world.specs.declared.schedule.Delivery.{Delivery};
ghost use Rattle.beet_errand.specs.Errands.{reads};
ghost use Rattle.beet_errand.specs.Overs.{ReadsTo};
ghost use Rattle.beet_load.specs.Loading.{AuctionWithBidders, loaded_errand};
ghost use Rattle.beet_load.specs.Servers.{masks_of};
ghost use Rattle.beet_load.specs.Wholes.{limited_errand};
ghost use Rattle.beet_job_rehearse.specs.Standings.{ended_alike};
ghost use Rattle.beet_job_rehearse.specs.StandingTexts.{rehearsal_text};
ghost use Rattle.beet_app_laws.specs.Calls.{Call, Says};
ghost use Rattle.beet_app_laws.specs.Held.{IsHeld};
ghost use Rattle.beet_completeness_laws.specs.Complete.{CanAudit, CanCompare, CanCompareForTwo, CanOpen, CanRehearse};
ghost use Rattle.beet_completeness_laws.specs.Complete.{CanClear, CanRunFive, CanRunTrial, CanSeal, CanTally};
ghost use Rattle.beet_completeness_laws.specs.Complete.{CanWitness};
ghost use Rattle.beet_completeness_laws.specs.Kinds.{FileKind, ValueOf};
ghost use Rattle.beet_completeness_laws.specs.WithoutFault.{IsDoneOrShort, RunsWithoutFault};

/// If the files that a job reads are held and right, words and masks suffice, two books agree or three transcripts are
/// of one run, and no count of faults rises, the job ends with status 0, or memory ran out. If a schedule leaves
/// nothing undelivered, the line of each of the three servers then names the outcome of the book.
pub fn what_is_right_is_done()
    ensures tally { (files : List File) (auction book : List ℕ) (call : Call) →
        RunsWithoutFault files (codes "tally" ∷ auction ∷ book ∷ []) call →
        CanTally files auction book → IsDoneOrShort call }
    ensures clear { (files : List File) (auction servers book : List ℕ) (call : Call) →
        RunsWithoutFault files (codes "clear" ∷ auction ∷ servers ∷ book ∷ []) call →
        CanClear files (loaded_errand auction servers book) → IsDoneOrShort call }
    ensures watch { (files : List File) (auction servers book : List ℕ) (call : Call) →
        RunsWithoutFault files (codes "watch" ∷ auction ∷ servers ∷ book ∷ []) call →
        CanClear files (loaded_errand auction servers book) → IsDoneOrShort call }
    ensures five { (files : List File) (auction servers book : List ℕ) (call : Call) →
        RunsWithoutFault files (codes "five" ∷ auction ∷ servers ∷ book ∷ []) call →
        CanRunFive files auction servers book → IsDoneOrShort call }
    ensures rehearse { (files : List File) (auction servers book name : List ℕ) (loaded : AuctionWithBidders)
        (schedule : List Delivery) (call : Call) →
        RunsWithoutFault files (codes "rehearse" ∷ auction ∷ servers ∷ book ∷ name ∷ []) call →
        CanRehearse files auction servers book name loaded schedule → IsDoneOrShort call }
    ensures all_name_the_outcome { (files : List File) (auction servers book name : List ℕ)
        (loaded : AuctionWithBidders) (schedule : List Delivery) (call : Call) →
        RunsWithoutFault files (codes "rehearse" ∷ auction ∷ servers ∷ book ∷ name ∷ []) call →
        CanRehearse files auction servers book name loaded schedule →
        undelivered (book_rounds (book_with loaded.grid loaded.farmers) (masks_of loaded.servers))
        (after (book_rounds (book_with loaded.grid loaded.farmers) (masks_of loaded.servers)) (named_in schedule)) ≡ 0 →
        call.status ≡ 0 → Says call (rehearsal_text loaded.grid
        (ended_alike (finish_of (outcome_of (book_with loaded.grid loaded.farmers))))) }
    ensures recorded { (files : List File) (auction servers book out : List ℕ) (call : Call) →
        RunsWithoutFault files (codes "record" ∷ auction ∷ servers ∷ book ∷ out ∷ []) call →
        CanClear files (limited_errand auction servers book) → IsDoneOrShort call }
    ensures seal { (files : List File) (auction bid source out : List ℕ) (call : Call) →
        RunsWithoutFault files (codes "seal" ∷ auction ∷ bid ∷ source ∷ out ∷ []) call →
        CanSeal files auction bid source → IsDoneOrShort call }
    ensures opened { (files : List File) (auction servers list : List ℕ) (call : Call) →
        RunsWithoutFault files (codes "open" ∷ auction ∷ servers ∷ list ∷ []) call →
        CanOpen files auction servers list → IsDoneOrShort call }
    ensures witness { (files : List File) (auction servers list out : List ℕ) (call : Call) →
        RunsWithoutFault files (codes "witness" ∷ auction ∷ servers ∷ list ∷ out ∷ []) call →
        CanWitness files auction servers list → IsDoneOrShort call }
    ensures trial { (files : List File) (first second : List ℕ) (call : Call) →
        RunsWithoutFault files (codes "trial" ∷ first ∷ second ∷ []) call →
        CanRunTrial first second → IsDoneOrShort call }
    ensures worlds { (files : List File) (auction servers book1 book2 server out : List ℕ) (call : Call) →
        RunsWithoutFault files (codes "worlds" ∷ auction ∷ servers ∷ book1 ∷ book2 ∷ server ∷ out ∷ []) call →
        CanCompare files auction servers book1 book2 server → IsDoneOrShort call }
    ensures five_worlds { (files : List File) (auction servers book1 book2 one other out : List ℕ) (call : Call) →
        RunsWithoutFault files
        (codes "five_worlds" ∷ auction ∷ servers ∷ book1 ∷ book2 ∷ one ∷ other ∷ out ∷ []) call →
        CanCompareForTwo files auction servers book1 book2 one other → IsDoneOrShort call }
    ensures audit { (files : List File) (auction one two three : List ℕ) (call : Call) →
        RunsWithoutFault files (codes "audit" ∷ auction ∷ one ∷ two ∷ three ∷ []) call →
        CanAudit files auction one two three → IsDoneOrShort call }
{}

/// What the premises of completeness call read is what is held: a file of any kind that is held, no longer than its
/// limit and in its grammar reads to its value.
pub fn what_is_held_is_read()
    ensures { (kind : FileKind) (files : List File) (name : List ℕ) (limit : ℕ)
        (grammar : List ℕ → Reading (ValueOf kind)) (value : ValueOf kind) →
        IsHeld files name limit grammar value → ReadsTo files (reads name limit grammar) value }
{}
