//! What a job answers goes out to a desk: its files are put, one after another, and then its text is said.

ghost use Rattle.beet_store.specs.Desks.{Called, Put};
ghost use Rattle.beet_errand.specs.Runs.{AnswersBy, EndGoesOut, Gives};

use crate::answer::{NewFile, Reply, Status, Stop};
use beet_store::{Desk, PutFault};
use std::alloc::Global;

/// Puts a file under its name.
fn put_file<K: Desk>(alloc: Global, desk: &mut K, file: &NewFile) -> Result<(), PutFault>
    ensures { Called (K.seen desk.old) (K.seen desk.new) (Put file.now.0 file.now.1 result) }
{
    desk.put(alloc, file.name.as_str(), file.bytes.as_slice())
}

/// Puts the files in order, and then says the text. The first call that is refused is the last.
fn give<K: Desk>(
    alloc: Global,
    desk: &mut K,
    files: &[NewFile],
    text: &[u8],
) -> Result<(), PutFault>
    ensures { Gives (K.seen desk.old) (K.seen desk.new) files.now text.now result }
{
    for file in files {
        put_file(alloc, desk, file)?;
    }
    desk.say(text)
}

/// Gives the files and the text of a reply to the desk. The status is the reply's, or that of the call that was
/// refused.
fn send<K: Desk>(alloc: Global, desk: &mut K, reply: &Reply) -> Status
    ensures { AnswersBy reply.now (K.seen desk.old) (K.seen desk.new) result }
{
    match give(alloc, desk, reply.files.as_slice(), reply.text.as_slice()) {
        Ok(()) => reply.status,
        Err(PutFault::Failed) => Status::WriteFault,
        Err(PutFault::OutOfMemory) => Status::OutOfMemory,
    }
}

/// Gives what a job answers to the desk: its files in order, and then its text. If memory ran out nothing is given.
pub fn give_answer<K: Desk>(alloc: Global, desk: &mut K, job: Result<Reply, Stop>) -> Status
    ensures { EndGoesOut (K.seen desk.old) (K.seen desk.new) job result }
{
    match job {
        Ok(reply) => send(alloc, desk, &reply),
        Err(Stop::Refused(refusal, line)) => {
            let reply = Reply::of_text(alloc, Status::Refused(refusal), line);
            send(alloc, desk, &reply)
        }
        Err(Stop::OutOfMemory) => Status::OutOfMemory,
    }
}
