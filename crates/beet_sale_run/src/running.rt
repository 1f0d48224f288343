//! Three servers hold a sale.

ghost use Rattle.std.specs.Prelude.{◌≡◌, IfErr, IfOk};
ghost use Rattle.beet_field.specs.Trio.{trio_of};
ghost use Rattle.beet_field.specs.declared.trio.Trio.{Trio as Each};
ghost use Rattle.beet_load.specs.Wholes.{by_server};
ghost use Rattle.beet_server.specs.Cores.{Core};
ghost use Rattle.beet_map.specs.Secrets.{shares_of};
ghost use Rattle.beet_sale_plan.specs.Sale.{Sale as Script};
ghost use Rattle.beet_sale_file.specs.Sales.{IsSaleRecord, bids_of};
ghost use Rattle.beet_sale_load.specs.SaleLoading.{SaleRead};
ghost use Rattle.beet_sale_map.specs.InputLines.{dealer_lines};
ghost use Rattle.beet_sale_map.specs.Bids.{sale_over};
ghost use Rattle.beet_sale_run.specs.SaleRuns.{HaveHeld, finish_read, rounds_read};

use beet_errand::Stop;
use beet_field::{Point, Trio};
use beet_load::{ServerWords, cut_three};
use beet_run::start_script;
use beet_sale_file::Sale;
use beet_sale_load::{SaleWithWords, sale_counts};
use beet_sale_map::input_lines;
use beet_sale_script::{SaleEnd, SaleScript};
use beet_server::ServerCore;
use beet_shamir::Line;
use beet_words::FeList;
use beet_world::lockstep;
use std::alloc::{AllocError, Global};

/// The points of lines at a server.
fn points_at(alloc: Global, lines: &[Line], at: Point) -> Result<FeList, AllocError>
    ensures { IfOk result (λ points. points ≡ shares_of lines.now at) }
{
    let mut points = Vec::with_capacity(alloc, lines.len())?;
    for line in lines {
        points.push(line.at(at))?;
    }
    Ok(FeList::of(points))
}

/// The points of lines at each server.
fn points_of_lines(alloc: Global, lines: &[Line]) -> Result<Trio<FeList>, AllocError>
    ensures { IfOk result (λ points. points ≡ trio_of (shares_of lines.now)) }
{
    Trio::try_of(|at| points_at(alloc, lines, at))
}

/// The points of the bids at each server, as the bidders deal them.
fn deal_bids(alloc: Global, whole: &SaleWithWords) -> Result<Trio<FeList>, AllocError>
    ensures { IfOk result (λ points. points
        ≡ trio_of (shares_of (dealer_lines (bids_of whole.now.sale.rows) whole.now.words.bidders))) }
{
    let lines = input_lines(alloc, whole.sale.bids(), whole.words.bidders.as_slice())?;
    points_of_lines(alloc, lines.as_slice())
}

fn all_tapes(alloc: Global, whole: &SaleWithWords) -> Result<Trio<ServerWords>, AllocError>
    ensures { IfOk result (λ tapes. tapes ≡ by_server whole.now.words) }
{
    let counts = sale_counts(whole.sale.rows());
    cut_three(alloc, &counts, &whole.words)
}

fn script_of(sale: &Sale) -> SaleScript
    ensures limits { IsSaleRecord sale.now }
    ensures value { result ≡ sale_over sale.now.gates (bids_of sale.now.rows) }
{
    match SaleScript::new(sale.bids().len() as u32, sale.gates()) {
        Some(script) => script,
        None => unreachable!(),
    }
}

/// Holds a sale that is read: three servers begin it on the points that its bidders deal and on its words, and run to
/// the end on the caller's thread, round by round. Want of memory is the only error, and comes before the first round.
pub fn hold_sale(alloc: Global, whole: &SaleWithWords) -> Result<Trio<ServerCore<SaleScript>>, Stop>
    ensures memory { IfErr result (λ stop. stop ≡ Stop.OutOfMemory) }
    ensures held { IfOk result (HaveHeld whole.now) }
{
    let script = script_of(&whole.sale);
    let points = deal_bids(alloc, whole)?;
    let tapes = all_tapes(alloc, whole)?;
    let cores = start_script(alloc, script, points, tapes)?;
    Ok(lockstep(cores))
}

/// How the sale that three servers have held has ended, and after how many rounds.
pub fn end_of_sale(core: &ServerCore<SaleScript>) -> (SaleEnd, u32)
    requires { (read : SaleRead) × (cores : Each (Core Script)) × HaveHeld read cores × core.now ≡ cores.one }
    ensures { (read : SaleRead) (cores : Each (Core Script)) → HaveHeld read cores → core.now ≡ cores.one
        → (result.0 ≡ finish_read read) × (result.1 ≡ rounds_read read) }
{
    match core.script().finish(core.opened()) {
        Some(end) => (end, core.round()),
        None => unreachable!(),
    }
}
