//! What is told of the lots of a session.

ghost use Rattle.std.specs.Prelude.{◌≡◌, ◌++◌, ◌||◌, [], false, if◌then◌else◌, IfOk, OnOk};
ghost use Rattle.beet_errand.specs.Errands.{text_answer};
ghost use Rattle.beet_errand.specs.Fetches.{IsDone};
ghost use Rattle.beet_lot_load.specs.Telling.{is_spent, name_line};

use beet_errand::{Reply, Status};
use std::alloc::{AllocError, Global};

/// What is told of the lots so far, and whether the masks of one of them are spent.
#[derive(Drop)]
pub struct LotsTold {
    pub text: Vec<u8>,
    pub spent: bool,
}

/// The line of a lot's name.
fn lot_line(alloc: Global, name: &str) -> Result<Vec<u8>, AllocError>
    ensures { IfOk result (λ line. line.items ≡ name_line name.now) }
{
    Ok(format!(in alloc; "lot {name}\n")?.into_bytes())
}

/// Whether a status is that of spent masks.
fn tells_spent(status: Status) -> bool
    ensures { result ≡ is_spent status }
{
    matches!(status, Status::MasksSpent)
}

impl LotsTold {
    /// Nothing is told yet. It takes no memory.
    pub fn new(alloc: Global) -> LotsTold
        ensures text { result.text.items ≡ [] }
        ensures spent { result.spent ≡ false }
    {
        LotsTold {
            text: Vec::new(alloc),
            spent: false,
        }
    }

    /// Tells of a lot more: its name, and the text of a reply for it alone.
    pub fn add(&mut self, alloc: Global, name: &str, reply: &Reply) -> Result<(), AllocError>
        ensures text { OnOk result (self.new.text.items
            ≡ self.old.text.items ++ name_line name.now ++ reply.now.text) }
        ensures spent { OnOk result (self.new.spent ≡ (self.old.spent || is_spent reply.now.status)) }
    {
        let line = lot_line(alloc, name)?;
        self.text.extend_from_slice(line.as_slice())?;
        self.text.extend_from_slice(reply.text.as_slice())?;
        self.spent = self.spent || tells_spent(reply.status);
        Ok(())
    }

    /// The reply of a job that puts no file and tells this. It takes no memory.
    pub fn into_reply(self, alloc: Global) -> Reply
        ensures done { IsDone result.status }
        ensures reply { result ≡ text_answer (if self.spent then Status.MasksSpent else Status.Done) self.text.items }
    {
        let status = if self.spent {
            Status::MasksSpent
        } else {
            Status::Done
        };
        Reply::of_text(alloc, status, self.text)
    }
}
