//! What the program adds to the statements of `beet_headline`, command by command: if what a call of `run` was answered
//! is of some files, and it ends with status 0 or 6, the files read as what these statements speak of, and what was put
//! and said is what they say. Over a shelf in memory its answers are of its files; over the real files they are, if
//! these stood still while the call went on.
//!
//! There is no code here, and no memory is taken: the laws are contracts of functions that do nothing.
#![tactic(auto)]

ghost use Rattle.std.specs.Prelude.{◌≡◌, ℕ, List, [], ◌∷◌, codes, Some};
ghost use Rattle.beet_field.specs.Point.{server_of};
ghost use Rattle.beet_field.specs.declared.point.Point.{Point};
ghost use Rattle.beet_store.specs.Files.{File};
ghost use Rattle.beet_errand.specs.Overs.{ReadsTo};
ghost use Rattle.beet_job_worlds.specs.Reading.{Both, both_errand};
ghost use Rattle.beet_job_five_worlds.specs.Reading.{BothOfFive, both_errand as both_of_five};
ghost use Rattle.beet_app.specs.Jobs.{two_of_five};
ghost use Rattle.beet_app_laws.specs.Calls.{Call, IsDoneCall, IsOf, RunsJobOf};
ghost use Rattle.beet_program_laws.specs.Again.{IsPutAgain, record_words};
ghost use Rattle.beet_program_laws.specs.Accepted.{IsAccepted, IsAuditedByPoints, audit_words, witness_words};
ghost use Rattle.beet_program_laws.specs.Commands.{AuditsOneRun, Clears, ClearsAmongFive, OpensEnvelopes};
ghost use Rattle.beet_program_laws.specs.Commands.{PutsBothWorlds, PutsBothWorldsForTwo, RecordsRun};
ghost use Rattle.beet_program_laws.specs.Commands.{RunsTrial, Seals, ShowsStandings};
ghost use Rattle.beet_program_laws.specs.Commands.{Tallies, Watches, WitnessesEnvelopes, five_worlds_words};
ghost use Rattle.beet_program_laws.specs.Refusals.{RefusesBooks, RefusesBooksForTwo};

/// `tally AUCTION BOOK` says the sums of what the bidders of the book sell and buy.
pub fn what_tally_says_are_the_sums_of_the_bids()
    ensures { (files : List File) (auction book : List ℕ) (call : Call) →
        IsDoneCall files (codes "tally" ∷ auction ∷ book ∷ []) call → Tallies files auction book call }
{}

/// `clear AUCTION SERVERS BOOK` says what the servers of the book open, or that they are spent, and after how many
/// rounds.
pub fn what_clear_says_is_what_servers_open()
    ensures { (files : List File) (auction servers book : List ℕ) (call : Call) →
        IsDoneCall files (codes "clear" ∷ auction ∷ servers ∷ book ∷ []) call → Clears files auction servers book call }
{}

/// `five AUCTION SERVERS BOOK` says what five servers of the book open, or that they are spent, and after how many
/// rounds.
pub fn what_five_says_is_what_five_servers_open()
    ensures { (files : List File) (auction servers book : List ℕ) (call : Call) →
        IsDoneCall files (codes "five" ∷ auction ∷ servers ∷ book ∷ []) call →
        ClearsAmongFive files auction servers book call }
{}

/// `watch AUCTION SERVERS BOOK` says what `clear` says, and then of each server the rounds of this run and how many
/// numbers it opens.
pub fn what_watch_counts_is_the_run()
    ensures { (files : List File) (auction servers book : List ℕ) (call : Call) →
        IsDoneCall files (codes "watch" ∷ auction ∷ servers ∷ book ∷ []) call →
        Watches files auction servers book call }
{}

/// `record AUCTION SERVERS BOOK OUT` says what `clear` says, and puts the transcripts of this run.
pub fn what_record_puts_is_what_servers_see()
    ensures { (files : List File) (auction servers book out : List ℕ) (call : Call) →
        IsDoneCall files (record_words auction servers book out) call → RecordsRun files auction servers book out call }
{}

/// `rehearse AUCTION SERVERS BOOK SCHEDULE` says how each server stands after the deliveries of the schedule.
pub fn what_rehearse_says_is_how_servers_stand()
    ensures { (files : List File) (auction servers book schedule : List ℕ) (call : Call) →
        IsDoneCall files (codes "rehearse" ∷ auction ∷ servers ∷ book ∷ schedule ∷ []) call →
        ShowsStandings files auction servers book schedule call }
{}

/// `seal AUCTION BID SOURCE OUT` puts three envelopes, which are read again as the points of the bid's curve with the
/// words of its source.
pub fn what_seal_puts_are_the_points_of_the_bid()
    ensures { (files : List File) (auction bid source out : List ℕ) (call : Call) →
        IsDoneCall files (codes "seal" ∷ auction ∷ bid ∷ source ∷ out ∷ []) call →
        Seals files auction bid source out call }
{}

/// `open AUCTION SERVERS LIST` says what is found over the points of the envelopes; if the files hold what bidders
/// sealed of a book, it is what the servers of this book open.
pub fn what_open_says_is_what_was_sealed()
    ensures { (files : List File) (auction servers list : List ℕ) (call : Call) →
        IsDoneCall files (codes "open" ∷ auction ∷ servers ∷ list ∷ []) call →
        OpensEnvelopes files auction servers list call }
{}

/// `witness AUCTION SERVERS LIST OUT` says the same, and puts what each server sees of the run on the points of the
/// envelopes. The points and the words are within the limits in which transcripts are read again.
pub fn what_witness_puts_is_what_servers_see_of_envelopes()
    ensures { (files : List File) (auction servers list out : List ℕ) (call : Call) →
        IsDoneCall files (witness_words auction servers list out) call →
        WitnessesEnvelopes files auction servers list out call }
{}

/// `trial BIDDERS PRICES` says what the servers of the book that the rule makes open.
pub fn what_trial_says_is_what_servers_open()
    ensures { (files : List File) (bidders prices : List ℕ) (call : Call) →
        IsDoneCall files (codes "trial" ∷ bidders ∷ prices ∷ []) call → RunsTrial bidders prices call }
{}

/// `worlds AUCTION SERVERS BOOK1 BOOK2 SERVER OUT` puts what the server sees of both books, and the only words of the
/// second that go with those of the first.
pub fn what_worlds_puts_looks_the_same()
    ensures { (files : List File) (auction servers book1 book2 server out : List ℕ) (call : Call) →
        IsDoneCall files (codes "worlds" ∷ auction ∷ servers ∷ book1 ∷ book2 ∷ server ∷ out ∷ []) call →
        (s : Point) × (server_of server ≡ Some s)
        × PutsBothWorlds files auction servers book1 book2 s out call }
{}

/// If `worlds` ends with status 7 over files that read as two books, these do not agree for the server, and the line
/// tells the first thing by which it can tell them apart.
pub fn what_worlds_refuses_does_not_agree()
    ensures { (files : List File) (auction servers book1 book2 server out : List ℕ) (both : Both) (call : Call) →
        IsOf files call →
        RunsJobOf (codes "worlds" ∷ auction ∷ servers ∷ book1 ∷ book2 ∷ server ∷ out ∷ []) call →
        ReadsTo files (both_errand auction servers book1 book2) both → call.status ≡ 7 →
        (s : Point) × (server_of server ≡ Some s) × RefusesBooks s both call }
{}

/// `five_worlds AUCTION SERVERS BOOK1 BOOK2 A B OUT` puts what servers `A` and `B` of five see together of both books,
/// which is the same, byte for byte, and the only words of the second that go with those of the first. `A` and `B` are
/// digits from 1 to 5, the first below the second.
pub fn what_five_worlds_puts_looks_the_same_to_two()
    ensures { (files : List File) (auction servers book1 book2 one other out : List ℕ) (call : Call) →
        IsDoneCall files (five_worlds_words auction servers book1 book2 one other out) call →
        (two : ℕ × ℕ) × (two_of_five one other ≡ Some two)
        × PutsBothWorldsForTwo files auction servers book1 book2 two.0 two.1 out call }
{}

/// If `five_worlds` ends with status 7 over files that read as two books, these do not agree for the two servers, and
/// the line tells the first thing by which these can tell them apart together.
pub fn what_five_worlds_refuses_does_not_agree()
    ensures { (files : List File) (auction servers book1 book2 one other out : List ℕ) (both : BothOfFive)
        (call : Call) → IsOf files call →
        RunsJobOf (five_worlds_words auction servers book1 book2 one other out) call →
        ReadsTo files (both_of_five auction servers book1 book2) both → call.status ≡ 7 →
        (two : ℕ × ℕ) × (two_of_five one other ≡ Some two) × RefusesBooksForTwo two.0 two.1 both call }
{}

/// `audit AUCTION T1 T2 T3` finds three transcripts of one run, and says how it ended.
pub fn what_audit_says_is_the_end_of_one_run()
    ensures { (files : List File) (auction one two three : List ℕ) (call : Call) →
        IsDoneCall files (audit_words auction one two three) call → AuditsOneRun files auction one two three call }
{}

/// The transcripts that `record AUCTION SERVERS BOOK OUT` puts are accepted: an `audit` over any shelf that holds the
/// auction and these three under any names ends with the status of the run and says its text, unless memory runs out, a
/// file cannot be fetched or a call of the desk fails. A desk that tells its files holds them.
pub fn what_record_puts_is_accepted()
    ensures { (files : List File) (auction servers book out : List ℕ) (call : Call) →
        IsDoneCall files (record_words auction servers book out) call → IsAccepted files auction out call }
{}

/// The transcripts that `witness AUCTION SERVERS LIST OUT` puts are accepted exactly if each bidder's points lie on
/// lines whose values are a curve: then an `audit` over any shelf that holds the auction and these three under any
/// names ends with the status of the run and says its text. Else it ends with status 8, and its line has the number 2
/// or 3 and the first bidder of whom this is not so. Or memory runs out, a file cannot be fetched or a call of the desk
/// fails. A desk that tells its files holds the three.
pub fn what_witness_puts_is_audited_by_its_points()
    ensures { (files : List File) (auction servers list out : List ℕ) (call : Call) →
        IsDoneCall files (witness_words auction servers list out) call →
        IsAuditedByPoints files auction servers list out call }
{}

/// What `worlds AUCTION SERVERS BOOK1 BOOK2 SERVER OUT` puts can be made again: if the second book is recorded over the
/// same files of the auction and of its bids, with the bundle of words that was put, and this is done, the transcript
/// that it puts for that server is the one that was put for both books.
pub fn recording_the_second_world_puts_its_transcript()
    ensures { (files : List File) (auction servers book1 book2 server out : List ℕ) (call : Call) →
        IsDoneCall files (codes "worlds" ∷ auction ∷ servers ∷ book1 ∷ book2 ∷ server ∷ out ∷ []) call →
        IsPutAgain files auction book2 server out call }
{}
