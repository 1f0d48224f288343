//! What the program of sessions adds to the statements of `beet_headline`, command by command: what is said at status 0
//! or 6 is how the auction of each lot ends by its own book, or how each lot stands by its own events; what `pair` puts
//! looks the same to its server, and what it refuses at status 7 does not agree. And each command ends with status 0 if
//! its files are in order, no call of the outside fails and memory suffices.
//!
//! There is no code here, and no memory is taken: the laws are contracts of functions that do nothing.
#![tactic(auto)]

ghost use Rattle.std.specs.Prelude.{◌≡◌, ℕ, List, [], ◌∷◌, Some, codes};
ghost use Rattle.beet_field.specs.Point.{server_of};
ghost use Rattle.beet_field.specs.declared.point.Point.{Point};
ghost use Rattle.beet_store.specs.Files.{File};
ghost use Rattle.beet_errand.specs.Overs.{ReadsTo};
ghost use Rattle.beet_job_session_pair.specs.Reading.{Both, both_errand};
ghost use Rattle.beet_app_laws.specs.Calls.{Call};
ghost use Rattle.beet_completeness_laws.specs.WithoutFault.{IsDoneOrShort};
ghost use Rattle.beet_session_laws.specs.Complete.{CanPair, CanReplay, CanRunSession, RunsSessionWithoutFault};
ghost use Rattle.beet_session_laws.specs.Lots.{IsDoneSession, RunsLots, RunsSession, ShowsLots};
ghost use Rattle.beet_session_laws.specs.Pairs.{PutsBothSessions, RefusesBothSessions};

/// `session SESSION SERVERS` says for each lot its name, and what the servers of its own book open, or that they are
/// spent, and after how many rounds.
pub fn what_session_says_is_what_servers_open()
    ensures { (files : List File) (session servers : List ℕ) (call : Call) →
        IsDoneSession files (codes "session" ∷ session ∷ servers ∷ []) call → RunsLots files session servers call }
{}

/// `replay SESSION SERVERS SCHEDULE` says for each lot its name, and how each server stands after the events of this
/// lot alone, whatever the schedule delivers in the others.
pub fn what_replay_says_is_how_lots_stand()
    ensures { (files : List File) (session servers schedule : List ℕ) (call : Call) →
        IsDoneSession files (codes "replay" ∷ session ∷ servers ∷ schedule ∷ []) call →
        ShowsLots files session servers schedule call }
{}

/// `pair SESSION1 SESSION2 SERVERS SERVER OUT` puts what the server sees of both sessions, which is the same, and for
/// each lot the only words of the second that go with those of the first.
pub fn what_pair_puts_looks_the_same()
    ensures { (files : List File) (session1 session2 servers server out : List ℕ) (call : Call) →
        IsDoneSession files (codes "pair" ∷ session1 ∷ session2 ∷ servers ∷ server ∷ out ∷ []) call →
        (s : Point) × (server_of server ≡ Some s)
        × PutsBothSessions files session1 session2 servers s out call }
{}

/// If it ends with status 7 over files that read as two sessions, these do not agree for the server, and the line tells
/// the first thing by which it can tell them apart.
pub fn what_pair_refuses_does_not_agree()
    ensures { (files : List File) (session1 session2 servers server out : List ℕ) (both : Both) (call : Call) →
        RunsSession files (codes "pair" ∷ session1 ∷ session2 ∷ servers ∷ server ∷ out ∷ []) call →
        ReadsTo files (both_errand session1 session2 servers) both → call.status ≡ 7 →
        (s : Point) × (server_of server ≡ Some s) × RefusesBothSessions s both call }
{}

/// If the files that a job reads are held and right, words suffice and masks do in each lot, two sessions agree
/// for the server, and no count of faults rises, the job ends with status 0, or memory ran out.
pub fn what_is_right_is_done()
    ensures session { (files : List File) (session servers : List ℕ) (call : Call) →
        RunsSessionWithoutFault files (codes "session" ∷ session ∷ servers ∷ []) call →
        CanRunSession files session servers → IsDoneOrShort call }
    ensures replay { (files : List File) (session servers schedule : List ℕ) (call : Call) →
        RunsSessionWithoutFault files (codes "replay" ∷ session ∷ servers ∷ schedule ∷ []) call →
        CanReplay files session servers schedule → IsDoneOrShort call }
    ensures paired { (files : List File) (session1 session2 servers server out : List ℕ) (call : Call) →
        RunsSessionWithoutFault files (codes "pair" ∷ session1 ∷ session2 ∷ servers ∷ server ∷ out ∷ []) call →
        CanPair files session1 session2 servers server → IsDoneOrShort call }
{}
