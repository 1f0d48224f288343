//! Reading an auction and three transcripts.

ghost use Rattle.beet_forms.specs.declared.faults.TheConstants.{LONGEST_FILE};
ghost use Rattle.beet_errand.specs.Errands.{reads};
ghost use Rattle.beet_errand.specs.Fetches.{Reads};
ghost use Rattle.beet_view.specs.Transcripts.{view_in};
ghost use Rattle.beet_job_audit.specs.Reading.{read_errand};

use beet_bids::Grid;
use beet_errand::{Stop, fetch_file, judge};
use beet_field::Trio;
use beet_forms::{LONGEST_FILE, beside};
use beet_load::read_grid;
use beet_store::Shelf;
use beet_view::{View, read_view};
use std::alloc::Global;

/// The names of the files of the job: the auction, and the transcripts of servers 1, 2 and 3.
#[derive(Clone, Copy)]
pub struct AuditFiles<'a> {
    pub auction: &'a str,
    pub one: &'a str,
    pub two: &'a str,
    pub three: &'a str,
}

/// The grid of an auction, and three views that are held against it.
#[derive(Drop)]
pub struct ReadViews {
    pub grid: Grid,
    pub views: Trio<View>,
}

fn read_transcript<S: Shelf>(alloc: Global, shelf: &mut S, name: &str) -> Result<View, Stop>
    ensures { Reads (λ view. view) (S.seen shelf.old) (S.seen shelf.new)
        (reads name.now LONGEST_FILE view_in) result }
{
    let bytes = fetch_file(alloc, shelf, name, LONGEST_FILE)?;
    judge(alloc, name, read_view(alloc, bytes.as_slice()))
}

/// The auction and the transcripts, each judged before the next is fetched.
pub(crate) fn read_views<S: Shelf>(
    alloc: Global,
    shelf: &mut S,
    files: &AuditFiles<'_>,
) -> Result<ReadViews, Stop>
    ensures { Reads (λ read. read) (S.seen shelf.old) (S.seen shelf.new)
        (read_errand files.now.auction.now files.now.one.now files.now.two.now files.now.three.now) result }
{
    let grid = read_grid(alloc, shelf, files.auction)?;
    let one = read_transcript(alloc, shelf, files.one)?;
    let (one, two) = beside(one, read_transcript(alloc, shelf, files.two))?;
    let ((one, two), three) = beside((one, two), read_transcript(alloc, shelf, files.three))?;
    Ok(ReadViews {
        grid,
        views: Trio { one, two, three },
    })
}
