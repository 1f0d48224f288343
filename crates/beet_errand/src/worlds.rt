//! What a job answers that shows two worlds which look the same to a server.

ghost use Rattle.std.specs.Prelude.{◌≡◌, ◌++◌, IfOk, codes};
ghost use Rattle.beet_errand.specs.Worlds.{files_of_worlds, telling_equal};

use crate::answer::{NewFile, Reply};
use beet_field::Trio;
use std::alloc::{AllocError, Global};

/// A file whose name is the stem with an ending.
fn file_of(alloc: Global, stem: &str, ending: &str, bytes: Vec<u8>) -> Result<NewFile, AllocError>
    ensures { IfOk result (λ file. file ≡ (stem.now ++ ending.now, bytes.items)) }
{
    let name = format!(in alloc; "{stem}{ending}")?;
    Ok(NewFile { name, bytes })
}

/// The files of two worlds, in the order in which they are put: the transcripts `OUT.first` and `OUT.second`, and the
/// words of the second world, `OUT.words`.
fn worlds_files(
    alloc: Global,
    out: &str,
    first: Vec<u8>,
    second: Vec<u8>,
    words: Vec<u8>,
) -> Result<Vec<NewFile>, AllocError>
    ensures { IfOk result (λ files. files.items ≡ files_of_worlds out.now first.items second.items words.items) }
{
    let files = Trio {
        one: file_of(alloc, out, ".first", first),
        two: file_of(alloc, out, ".second", second),
        three: file_of(alloc, out, ".words", words),
    };
    let Trio { one, two, three } = files.transpose()?;
    Ok(vec![in alloc; one, two, three]?)
}

impl Reply {
    /// The reply with these files, which tells besides that the transcripts are equal. Want of memory is the only
    /// error.
    pub fn telling_equal(self, files: Vec<NewFile>) -> Result<Reply, AllocError>
        ensures { IfOk result (λ reply. reply ≡ telling_equal self files.items) }
    {
        let mut reply = self;
        reply.text.extend_from_slice(b"transcripts equal\n")?;
        reply.files = files;
        Ok(reply)
    }
    /// The reply with what a server has seen in two worlds and with the words of the second. It tells besides that the
    /// transcripts are equal. The files are `OUT.first`, `OUT.second` and `OUT.words`, in this order. Want of memory
    /// is the only error.
    pub fn telling_worlds(
        self,
        alloc: Global,
        out: &str,
        first: Vec<u8>,
        second: Vec<u8>,
        words: Vec<u8>,
    ) -> Result<Reply, AllocError>
        ensures { IfOk result (λ reply. reply
            ≡ telling_equal self (files_of_worlds out.now first.items second.items words.items)) }
    {
        let files = worlds_files(alloc, out, first, second, words)?;
        self.telling_equal(files)
    }
}
