use super::samples::{are, lists};
use beet_field::Fe;
use beet_gates::{ClearRun, clear_run};
use beet_samples::Sample;
use std::alloc::Global;
use std::process::Abort;

/// The run in which 3 and 4 are multiplied.
fn three_by_four(rt: &impl Abort, alloc: Global) -> ClearRun {
    let masks = lists(rt, alloc, [&[], &[], &[]]);
    let factors = [Fe::reduce(3), Fe::reduce(4)];
    clear_run(alloc, &Sample::Product, &factors, &masks).expect(rt, "memory")
}

/// Compares the wires, the opened number and the rounds of the run.
fn expect_twelve(rt: &impl Abort, run: &ClearRun) {
    assert!(rt; are(run.wires.as_slice(), &[3, 4, 12]));
    assert!(rt; are(run.opened.as_slice(), &[12]));
    assert!(rt; run.rounds == 2);
}

#[test]
fn product_of_three_and_four(rt: HostRuntime) {
    expect_twelve(&rt, &three_by_four(&rt, rt.alloc()));
}
