use super::frame::{RECORD, desk_of, done};
use beet_field::Point;
use beet_forms::ReadFault;
use beet_view::{View, read_view};
use std::alloc::Global;
use std::process::Abort;

/// What the view of server 2 tells of the run and of the bidders.
fn expect_view(rt: &impl Abort, view: &View) {
    assert!(rt; view.server() == Point::Two);
    assert!(rt; view.rounds() == 255);
    assert!(rt; view.bidders().len() == 3);
    for seen in view.bidders() {
        assert!(rt; seen.own.is_some() == (seen.known == Some(Point::Two)));
    }
}

/// Reads the transcript of server 2.
fn expect_second(rt: &impl Abort, alloc: Global, bytes: &[u8]) {
    assert!(rt; bytes.len() <= 100_000);
    let view = read_view(alloc, bytes).expect(rt, "a view");
    expect_view(rt, &view);
}

/// Compares how a front of the transcript is refused.
fn expect_front(rt: &impl Abort, alloc: Global, front: &[u8], offset: u64, reason: u32) {
    assert!(rt; front.len() <= 100_000);
    let wanted = ReadFault::at_offset(offset, reason);
    assert!(rt;
        read_view(alloc, front).err() == Some(wanted),
        "at {offset}"
    );
}

/// Reads fronts of the transcript.
fn expect_fronts(rt: &impl Abort, alloc: Global, bytes: &[u8]) {
    assert!(rt; bytes.len() == 35_000);
    for k in 1..360usize {
        let length = 97 * k;
        let offset = length as u64 / 8 * 8;
        expect_front(rt, alloc, &bytes[..length], offset, 2);
    }
    expect_front(rt, alloc, &bytes[..7], 0, 1);
}

#[test]
fn transcript_is_read_whole_and_cut_off(rt: HostRuntime) {
    let mut desk = desk_of(&rt, rt.alloc(), 0);
    assert!(rt; done(&rt, rt.alloc(), RECORD, "", &mut desk) == 0);
    let bytes = desk.file("o.2").expect(&rt, "a transcript");
    expect_second(&rt, rt.alloc(), bytes);
    expect_fronts(&rt, rt.alloc(), bytes);
}
