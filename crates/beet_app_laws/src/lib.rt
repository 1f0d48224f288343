//! What follows from the clauses of `run`, row by row of the table of its exit statuses: the contracts of functions
//! that do nothing.
#![tactic(auto)]

ghost use Rattle.std.specs.Prelude.{◌≡◌, ◌≢◌, ℕ, List, Some};
ghost use Rattle.beet_store.specs.Files.{File};
ghost use Rattle.beet_errand.specs.declared.answer.Status.{Status};
ghost use Rattle.beet_app.specs.Jobs.{job_of};
ghost use Rattle.beet_app_laws.specs.Calls.{Call, IsOf, RunsJobOf};
ghost use Rattle.beet_app_laws.specs.Dues.{EndsAsDue, IsDue};
ghost use Rattle.beet_app_laws.specs.Leavings.{LeavesBy, last_word};
ghost use Rattle.beet_app_laws.specs.Recorded.{RecordsJob};

/// A call leaves at the desk what its exit status says: at 2, 3, 5, 7, 8 and 9 one line of that refusal, at 0 and 6 all
/// files of an answer and then its text, at 4 the calls up to the one that failed, and at 1 no text. Files are put
/// under the last word with a dot and the server's number, or with `.first`, `.second` and `.words`, and no other name.
pub fn statuses_tell_what_is_left()
    ensures { (words : List (List ℕ)) (call : Call) → RunsJobOf words call → LeavesBy (last_word words) call }
{}

/// If the shelf's answers are of these files, a call ends with the status to which they lead, unless a file could not
/// be fetched, a call of the desk failed or memory ran out.
pub fn files_lead_to_the_status()
    ensures { (words : List (List ℕ)) (files : List File) (call : Call) (due : Status) →
        IsOf files call → RunsJobOf words call → IsDue files (job_of words) due → EndsAsDue due call.status }
{}

/// If a shelf tells its files, what a call was answered is of them.
pub fn told_files_give_the_answers()
    ensures { (words : List (List ℕ)) (files : List File) (call : Call) →
        call.shelf.files ≡ Some files → RunsJobOf words call → IsOf files call }
{}

/// At every status but 1 and 4, the recorded fetches lead the job of the words to an answer of this status, or to the
/// usage line if they name no job; and the recorded calls of the desk give this answer, whole, in order and once.
pub fn the_record_is_of_the_jobs_answer()
    ensures { (words : List (List ℕ)) (call : Call) →
        RunsJobOf words call → call.status ≢ 1 → call.status ≢ 4 → RecordsJob (job_of words) call }
{}
