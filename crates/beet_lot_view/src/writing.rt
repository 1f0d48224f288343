//! A file of several lots, as it is written.

ghost use Rattle.std.specs.Prelude.{◌≡◌, ◌++◌, IfOk, OnOk};
ghost use Rattle.beet_lot_view.specs.SessionViews.{lot_part, lots_start, view_magic, words_magic};

use beet_words::push_number;
use std::alloc::{AllocError, Global};
use std::marker::Model;

/// A file of several lots: a text of 8 bytes, the number of lots, and for each lot that was put into it the length of
/// its bytes and those bytes. Numbers are those of a transcript.
#[derive(Drop)]
pub struct LotsFile {
    bytes: Vec<u8>,
}

impl Model for LotsFile {
    ghost use Rattle.std.specs.Prelude.{ℕ, List};

    ghost Value = { List ℕ };

    ghost view = { λ a. a.bytes.items };
}

/// The text that what a server has seen of a session begins with.
const VIEW_MAGIC: &[u8] = b"BEETSS01";

/// The text that the words of a session begin with.
const WORDS_MAGIC: &[u8] = b"BEETSW01";

impl LotsFile {
    /// A file that begins with a text and a number of lots.
    fn begin(alloc: Global, magic: &[u8], lots: u64) -> Result<LotsFile, AllocError>
        ensures { IfOk result (λ file. file ≡ lots_start magic.now lots) }
    {
        let mut bytes = Vec::new(alloc);
        bytes.extend_from_slice(magic)?;
        push_number(&mut bytes, lots)?;
        Ok(LotsFile { bytes })
    }

    /// A file for the transcripts of so many lots, into which none is put yet. Want of memory is the only error.
    pub fn of_views(alloc: Global, lots: u64) -> Result<LotsFile, AllocError>
        ensures { IfOk result (λ file. file ≡ lots_start view_magic lots) }
    {
        LotsFile::begin(alloc, VIEW_MAGIC, lots)
    }

    /// A file for the bundles of the words of so many lots, into which none is put yet. Want of memory is the only
    /// error.
    pub fn of_words(alloc: Global, lots: u64) -> Result<LotsFile, AllocError>
        ensures { IfOk result (λ file. file ≡ lots_start words_magic lots) }
    {
        LotsFile::begin(alloc, WORDS_MAGIC, lots)
    }

    /// Puts the bytes of one lot more behind the others. Want of memory is the only error.
    pub fn push(&mut self, lot: &[u8]) -> Result<(), AllocError>
        ensures { OnOk result (self.new ≡ self.old ++ lot_part lot.now) }
    {
        push_number(&mut self.bytes, lot.len() as u64)?;
        self.bytes.extend_from_slice(lot)
    }

    /// The bytes of the file, given away.
    pub fn into_bytes(self) -> Vec<u8>
        ensures { result.items ≡ self }
    {
        self.bytes
    }
}
