//! How a program ends.

ghost use Rattle.std.specs.Prelude.{◌≡◌, option_map};
ghost use Rattle.std.specs.Process.{exit_status};
ghost use Rattle.beet_command.specs.Ending.{cause_text, notice_text};

use beet_errand::Status;
use std::process::ExitCode;

/// What standard error tells if nothing on standard output tells why the run ended.
fn cause_of(status: u8) -> Option<&'static str>
    ensures { option_map (λ text. text.now) result ≡ cause_text status }
{
    if status == Status::OutOfMemory.code() {
        Some("memory ran out")
    } else if status == Status::WriteFault.code() {
        Some("a file or the text could not be written")
    } else {
        None
    }
}

/// Ends a program with this status, and tells on standard error what standard output does not.
pub fn end_program<R: Eprint>(rt: &R, status: u8) -> ExitCode
    ensures { exit_status result ≡ status }
{
    if let Some(cause) = cause_of(status) {
        // If standard error takes nothing either, the status alone tells it.
        let _told = eprintln!(rt; "beet: {cause}");
    }
    ExitCode::from(status)
}

/// What standard error tells besides if two parties have one seed.
fn notice_of(twice: bool) -> Option<&'static str>
    ensures { option_map (λ text. text.now) result ≡ notice_text twice }
{
    if twice {
        Some("two parties have one seed")
    } else {
        None
    }
}

/// Tells on standard error, at whatever status, if two parties have one seed: of two bidders with one seed, what one
/// server sees tells the difference of their bids.
pub fn tell_of_seeds<R: Eprint>(rt: &R, twice: bool) {
    if let Some(notice) = notice_of(twice) {
        let _told = eprintln!(rt; "beet: {notice}");
    }
}
