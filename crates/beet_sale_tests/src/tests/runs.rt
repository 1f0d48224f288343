//! The run of the script of a sale.

use beet_field::{Fe, Trio};
use beet_gates::{ClearRun, Gates, Script, clear_run};
use beet_sale_script::SaleScript;
use beet_words::WordList;
use std::alloc::Global;
use std::process::Abort;

/// The run on these bids, with these masks.
pub fn run(
    rt: &impl Abort,
    alloc: Global,
    gates: Gates,
    bids: &[u64],
    masks: Trio<WordList>,
) -> ClearRun {
    let mut inputs = Vec::new(alloc);
    for bid in bids {
        inputs.push(Fe::reduce(*bid as u128)).expect(rt, "memory");
    }
    assert!(rt; bids.len() <= 16);
    let script = SaleScript::new(bids.len() as u32, gates).expect(rt, "a script");
    let wanted = script.masks() as usize;
    assert!(rt; masks.one.len() >= wanted);
    assert!(rt; masks.two.len() >= wanted);
    assert!(rt; masks.three.len() >= wanted);
    assert!(rt; inputs.len() == script.inputs() as usize);
    clear_run(alloc, &script, &inputs, &masks).expect(rt, "memory")
}

/// The last two opened numbers: the winner, counted from 1, and the price.
pub fn sold(rt: &impl Abort, run: &ClearRun) -> (u64, u64) {
    let opened = run.opened.as_slice();
    assert!(rt; opened.len() >= 2);
    (
        opened[opened.len() - 2].value(),
        opened[opened.len() - 1].value(),
    )
}
