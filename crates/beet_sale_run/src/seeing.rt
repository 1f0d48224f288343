//! What one server sees of a sale.

ghost use Rattle.std.specs.Prelude.{◌≡◌, IfErr, IfOk, length, map};
ghost use Rattle.beet_mapped.specs.Dealers.{dealers_of};
ghost use Rattle.beet_sale_file.specs.Sales.{bids_of};
ghost use Rattle.beet_highbid.specs.SaleViews.{sale_bytes, sale_transcript, seen_bid};
ghost use Rattle.beet_sale_map.specs.Worlds.{party_of};
ghost use Rattle.beet_sale_run.specs.SaleRuns.{finish_read, rounds_read};

use crate::running::{end_of_sale, hold_sale};
use beet_errand::Stop;
use beet_field::Point;
use beet_highbid::write_sale_view;
use beet_sale_file::Sale;
use beet_sale_load::SaleWithWords;
use beet_sale_script::SaleEnd;
use beet_view::{RunView, run_view};
use beet_words::Words;
use std::alloc::{AllocError, Global};

/// How a sale ended, after how many rounds, and the transcript of one server.
#[derive(Drop)]
pub struct SeenSale {
    pub end: SaleEnd,
    pub rounds: u32,
    pub transcript: Vec<u8>,
}

/// The transcript of a server of a sale with these words, and what the server has seen of the run.
fn write_view(
    alloc: Global,
    me: Point,
    sale: &Sale,
    words: &Words,
    run: &RunView,
) -> Result<Vec<u8>, AllocError>
    requires { length words.now.bidders ≡ length sale.now.rows }
    ensures { IfOk result (λ file. file.items ≡ sale_bytes (record {
      server = me;
      gates = sale.now.gates;
      bids = map (seen_bid me) (dealers_of (map party_of (bids_of sale.now.rows)) words.now.bidders);
      run = run.now;
    })) }
{
    write_sale_view(alloc, me, sale, words.bidders.as_slice(), run)
}

/// Holds a sale that is read, as `hold_sale` does, and writes what one server has seen. Want of memory is the only
/// error.
pub fn see_sale(alloc: Global, me: Point, whole: &SaleWithWords) -> Result<SeenSale, Stop>
    ensures memory { IfErr result (λ stop. stop ≡ Stop.OutOfMemory) }
    ensures transcript { IfOk result (λ seen. seen.transcript.items
        ≡ sale_transcript whole.now.sale.gates (bids_of whole.now.sale.rows) whole.now.words me) }
    ensures end { IfOk result (λ seen. seen.end ≡ finish_read whole.now) }
    ensures rounds { IfOk result (λ seen. seen.rounds ≡ rounds_read whole.now) }
{
    let cores = hold_sale(alloc, whole)?;
    let (end, rounds) = end_of_sale(&cores.one);
    let run = run_view(alloc, cores.get(me));
    // One call lets them go: else the proof of each way out goes through each of their parts.
    drop(cores);
    let run = run?;
    let transcript = write_view(alloc, me, &whole.sale, &whole.words, &run);
    drop(run);
    Ok(SeenSale {
        end,
        rounds,
        transcript: transcript?,
    })
}
