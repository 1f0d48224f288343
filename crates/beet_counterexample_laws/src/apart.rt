//! What the statements of commands tell apart.

ghost use Rattle.std.specs.Prelude.{◌≡◌, ◌≢◌, ◌≤◌, ◌∷◌, ℕ, List, [], Option};
ghost use Rattle.beet_field.specs.declared.point.Point.{Point};
ghost use Rattle.beet_store.specs.Files.{File};
ghost use Rattle.beet_bids.specs.Grids.{Grid};
ghost use Rattle.beet_auction_map.specs.ViewsWith.{transcript_with};
ghost use Rattle.beet_errand.specs.Overs.{ReadsTo};
ghost use Rattle.beet_job_five_worlds.specs.Reading.{BothOfFive, both_errand};
ghost use Rattle.beet_app.specs.Jobs.{Job};
ghost use Rattle.beet_app_laws.specs.Calls.{Call};
ghost use Rattle.beet_app_laws.specs.Recorded.{RecordsJob};
ghost use Rattle.beet_program_laws.specs.Accepted.{AuditsPoints};
ghost use Rattle.beet_program_laws.specs.Again.{PutsFor};
ghost use Rattle.beet_program_laws.specs.Commands.{PutsBothWorldsForTwo, RecordsRun, Seals, Tallies};
ghost use Rattle.beet_program_laws.specs.Refusals.{RefusesBooksForTwo};
ghost use Rattle.beet_counterexample_laws.specs.TwoSealings.{mixed_points};

/// These statements do not hold of whatever was done: of no files there is no tally and no sealed bid, what a desk was
/// given tells which transcript was put for a server, and a recording puts under no server's name the transcript of
/// another. What is put for two of five servers is not put for two others, and two books that are compared for two
/// servers are not refused for them.
pub fn the_statements_tell_runs_apart()
    ensures tally { (auction book : List ℕ) (call : Call) → Tallies [] auction book call → ⊥ }
    ensures seal { (auction bid source out : List ℕ) (call : Call) → Seals [] auction bid source out call → ⊥ }
    ensures again { (out : List ℕ) (call : Call) (s : Point) (seen other : List ℕ) →
        PutsFor s seen out call → PutsFor s other out call → seen ≡ other }
    ensures exchanged { (files : List File) (auction servers book out : List ℕ) (call : Call)
        (recorded : RecordsRun files auction servers book out call) (s t : Point) → s ≢ t →
        PutsFor s (transcript_with recorded.book recorded.words t) out call → ⊥ }
    ensures two { (files : List File) (auction servers book1 book2 out : List ℕ) (call : Call) (a b c d : ℕ) →
        a ≤ 5 → b ≤ 5 → c ≤ 5 → d ≤ 5 → PutsBothWorldsForTwo files auction servers book1 book2 a b out call →
        PutsBothWorldsForTwo files auction servers book1 book2 c d out call → (a ≡ c) × (b ≡ d) }
    ensures refused { (files : List File) (auction servers book1 book2 out : List ℕ) (a b : ℕ) (both : BothOfFive)
        (call other : Call) → PutsBothWorldsForTwo files auction servers book1 book2 a b out call →
        ReadsTo files (both_errand auction servers book1 book2) both → RefusesBooksForTwo a b both other → ⊥ }
{}

/// Envelopes that were not sealed together are not accepted: if at one price the third envelope of a bid is of another
/// sealing than the first two, no audit of what `witness` put ends with the status of the run.
pub fn envelopes_of_two_sealings_are_not_accepted()
    ensures { (grid : Grid) (status : ℕ) (text : List ℕ) (audit : Call) → grid.prices ≡ 1 →
        AuditsPoints grid (mixed_points ∷ []) status text audit → audit.status ≢ status }
{}

/// A record tells the exit status: with another one the same record is not of the job's answer.
pub fn a_record_tells_the_status()
    ensures { (job : Option Job) (call : Call) (status : ℕ) → RecordsJob job call →
        RecordsJob job (record call { status = status }) → status ≡ call.status }
{}
