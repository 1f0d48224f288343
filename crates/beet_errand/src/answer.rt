//! How a run of the program ends.

ghost use Rattle.std.specs.Prelude.{◌≡◌, IfErr, IfOk};
ghost use Rattle.beet_errand.specs.Errands.{file_for, text_answer};
ghost use Rattle.beet_errand.specs.Statuses.{code_of};

use beet_field::Point;
use std::alloc::{AllocError, Global};
use std::marker::Model;

/// A refusal that only one kind of job has.
#[derive(Clone, Copy, PartialEq, Eq, Debug)]
pub enum OwnRefusal {
    /// Two books do not agree for a server.
    OfWorlds,
    /// Three transcripts are not those of one run.
    OfAudit,
}

/// Why words or a job are refused.
#[derive(Clone, Copy, PartialEq, Eq, Debug)]
pub enum Refusal {
    /// The words name no job.
    Usage,
    /// A file cannot be fetched.
    ReadFault,
    /// A file is too long, breaks its format, or breaks a limit of the job.
    BadFile,
    /// A tape holds too few words.
    TooFewWords,
    /// What was read is right, and the job refuses it by a refusal of its own.
    Own(OwnRefusal),
}

/// The end of a run.
#[derive(Clone, Copy, PartialEq, Eq, Debug)]
pub enum Status {
    /// The job is done.
    Done,
    /// The job is done, and a run of it has met the third rejected mask.
    MasksSpent,
    /// Memory ran out.
    OutOfMemory,
    /// A file or a text is not taken.
    WriteFault,
    /// The words or the job are refused.
    Refused(Refusal),
}

impl Status {
    /// The exit status of the program.
    pub fn code(self) -> u8
        ensures { result ≡ code_of self }
    {
        match self {
            Status::Done => 0,
            Status::OutOfMemory => 1,
            Status::Refused(Refusal::Usage) => 2,
            Status::Refused(Refusal::ReadFault) => 3,
            Status::WriteFault => 4,
            Status::Refused(Refusal::BadFile) => 5,
            Status::MasksSpent => 6,
            Status::Refused(Refusal::Own(OwnRefusal::OfWorlds)) => 7,
            Status::Refused(Refusal::Own(OwnRefusal::OfAudit)) => 8,
            Status::Refused(Refusal::TooFewWords) => 9,
        }
    }
}

/// A file that a job puts: its name and its bytes.
#[derive(Drop)]
pub struct NewFile {
    pub name: String,
    pub bytes: Vec<u8>,
}

impl Model for NewFile {
    ghost use Rattle.std.specs.Prelude.{string_bytes};
    ghost use Rattle.beet_store.specs.Files.{File};

    ghost Value = { File };

    ghost view = { λ a. (string_bytes a.name, a.bytes.items) };
}

impl NewFile {
    /// The file for a server: its name is `out`, a dot and the server's number.
    pub fn of_server(
        alloc: Global,
        out: &str,
        server: Point,
        bytes: Vec<u8>,
    ) -> Result<NewFile, AllocError>
        ensures { IfOk result (λ file. file ≡ (file_for out.now server, bytes.items)) }
    {
        let number = server.number();
        Ok(NewFile {
            name: format!(in alloc; "{out}.{number}")?,
            bytes,
        })
    }
}

/// What a job answers: its status, the files that it puts, in order, and the text that it says after them.
#[derive(Drop)]
pub struct Reply {
    pub status: Status,
    pub files: Vec<NewFile>,
    pub text: Vec<u8>,
}

impl Model for Reply {
    ghost use Rattle.beet_errand.specs.Errands.{Answer};

    ghost Value = { Answer };

    ghost view = { λ a. record { status = a.status; files = a.files.items; text = a.text.items } };
}

impl Reply {
    /// The reply of a job that puts no file. It takes no memory.
    pub fn of_text(alloc: Global, status: Status, text: Vec<u8>) -> Reply
        ensures { result ≡ text_answer status text.items }
    {
        Reply {
            status,
            files: Vec::new(alloc),
            text,
        }
    }
}

/// Why a step of a job does not give its value.
#[derive(Debug, Drop)]
pub enum Stop {
    /// The job is refused, and says this line.
    Refused(Refusal, Vec<u8>),
    /// Memory ran out.
    OutOfMemory,
}

impl Stop {
    /// Refuses a job by the line that was made for it. If there was no memory for the line, the job stops for that.
    pub fn of_line(refusal: Refusal, line: Result<Vec<u8>, AllocError>) -> Stop
        ensures refused { IfOk line (λ line. result ≡ Stop.Refused refusal line) }
        ensures memory { IfErr line (λ error. result ≡ Stop.OutOfMemory) }
    {
        match line {
            Ok(line) => Stop::Refused(refusal, line),
            Err(AllocError) => Stop::OutOfMemory,
        }
    }
}

impl From<AllocError> for Stop {
    ghost use Rattle.std.specs.Prelude.{◌≡◌};
    ghost use Rattle.beet_errand.specs.declared.answer.Stop.TheVariants.{OutOfMemory};

    ghost from_gives = { λ _ stop. stop ≡ OutOfMemory };

    fn from(_error: AllocError) -> Stop {
        Stop::OutOfMemory
    }
}
