use beet_bids::Policy;
use beet_field::{P, Point};
use beet_forms::{FaultPlace, ReadFault};
use beet_view::{View, read_view, write_view};
use std::alloc::Global;
use std::process::Abort;

/// The numbers of a small transcript: the server 2, a grid of 2 prices, a bidder that no server knows, one that the
/// server knows, a mask word, 2 coefficient words, and a round.
const SMALL: [u64; 33] = [
    2, 100, 5, 2, 0, 2, 0, 1, 2, 3, 4, 2, 5, 6, 7, 8, 9, 3, 1, 4, 1, 70, 1, 80, 2, 90, 91, 1, 1,
    11, 2, 12, 13,
];

/// The places of its numbers of prices and of bidders.
const PRICES: usize = 3;

const BIDDERS: usize = 5;

/// A form of a transcript: the text at the start, and what stands before the number of bidders.
type Form = (&'static [u8], &'static [u64]);

/// The form for the policy Volume.
const PLAIN: Form = (b"BEETVW01", &[]);

/// The forms for the others.
const PRICE: Form = (b"BEETVW02", &[0]);

const FULL: Form = (b"BEETVW02", &[2]);

/// Appends the fields of numbers.
fn push_all(rt: &impl Abort, file: &mut Vec<u8>, numbers: &[u64]) {
    for number in numbers {
        file.extend_from_slice(&number.to_be_bytes())
            .expect(rt, "memory");
    }
}

/// The transcript of these numbers in a form.
fn file_in(rt: &impl Abort, alloc: Global, (magic, policy): Form, numbers: &[u64; 33]) -> Vec<u8> {
    let mut file = Vec::from_slice(alloc, magic).expect(rt, "memory");
    push_all(rt, &mut file, &numbers[..BIDDERS]);
    push_all(rt, &mut file, policy);
    push_all(rt, &mut file, &numbers[BIDDERS..]);
    file
}

/// The numbers of the small transcript, of which one is another.
fn small_with(rt: &impl Abort, place: usize, number: u64) -> [u64; 33] {
    let mut numbers = SMALL;
    assert!(rt; place < 33);
    numbers[place] = number;
    numbers
}

/// The offset and the reason that a transcript is refused with.
fn fault_of(rt: &impl Abort, alloc: Global, bytes: &[u8]) -> Option<(u64, u32)> {
    assert!(rt; bytes.len() <= 100_000);
    match read_view(alloc, bytes).err()? {
        ReadFault::Bad {
            place: FaultPlace::At(at),
            reason,
        } => Some((at, reason)),
        _ => None,
    }
}

/// Compares the offset and the reason that the transcript of these numbers is refused with.
fn expect_fault(rt: &impl Abort, alloc: Global, numbers: &[u64; 33], fault: Option<(u64, u32)>) {
    let file = file_in(rt, alloc, PLAIN, numbers);
    assert!(rt; fault_of(rt, alloc, file.as_slice()) == fault);
}

/// A place of the small transcript, another number there, and the offset and the reason that this is refused with.
type Case = (usize, u64, Option<(u64, u32)>);

/// Compares what becomes of the small transcript with other numbers.
fn expect_faults(rt: &impl Abort, alloc: Global, cases: &[Case]) {
    for (place, number, fault) in cases {
        expect_fault(rt, alloc, &small_with(rt, *place, *number), *fault);
    }
}

/// Compares the fault of the small transcript if it has 4,096 prices and so many bidders.
fn expect_product(rt: &impl Abort, alloc: Global, bidders: u64, fault: (u64, u32)) {
    let mut numbers = SMALL;
    numbers[PRICES] = 4_096;
    numbers[BIDDERS] = bidders;
    expect_fault(rt, alloc, &numbers, Some(fault));
}

/// The view of the small transcript.
fn small(rt: &impl Abort, alloc: Global) -> View {
    let file = file_in(rt, alloc, PLAIN, &SMALL);
    assert!(rt; file.len() <= 1_000);
    read_view(alloc, file.as_slice()).expect(rt, "a view")
}

/// The first number of a message, if there is one.
fn first_number(view: &View, round: u32, sender: Point) -> Option<u64> {
    let numbers = view.numbers(round, sender)?;
    Some(numbers.first()?.value())
}

/// What the small view tells of its server, of the run and of the messages.
fn expect_small(rt: &impl Abort, view: &View) {
    assert!(rt; view.server() == Point::Two);
    assert!(rt; view.grid().prices() == 2);
    assert!(rt; view.masks().len() == 1);
    assert!(rt; view.coefficients().len() == 2);
    assert!(rt; view.rounds() == 1);
    assert!(rt; first_number(view, 0, Point::One) == Some(11));
    assert!(rt; first_number(view, 0, Point::Three) == Some(12));
    assert!(rt; first_number(view, 0, Point::Two).is_none());
    assert!(rt; first_number(view, 1, Point::One).is_none());
}

#[test]
fn small_view(rt: HostRuntime) {
    expect_small(&rt, &small(&rt, rt.alloc()));
}

/// What the bidder of a place buys at the last price and the number of its words, if the server knows it.
fn bought_last(view: &View, place: usize) -> Option<(u64, usize)> {
    let seen = view.bidders().get(place)?;
    let (curve, words) = seen.own.as_ref()?;
    if !curve.is_of(view.grid()) {
        return None;
    }
    Some((curve.buy(view.grid().prices() - 1), words.as_slice().len()))
}

/// What the small view tells of its bidders.
fn expect_bidders(rt: &impl Abort, view: &View) {
    assert!(rt; bought_last(view, 0).is_none());
    assert!(rt; bought_last(view, 1) == Some((3, 1)));
    assert!(rt; bought_last(view, 2).is_none());
}

#[test]
fn small_bidders(rt: HostRuntime) {
    expect_bidders(&rt, &small(&rt, rt.alloc()));
}

/// Compares what is written of a view with the file.
fn expect_written(rt: &impl Abort, alloc: Global, view: &View, file: &[u8]) {
    let written = write_view(alloc, view).expect(rt, "memory");
    assert!(rt; written.as_slice() == file);
    assert!(rt; written.capacity() == file.len());
}

/// Compares the policy of a transcript, and what is written of its view with itself.
fn expect_again(rt: &impl Abort, alloc: Global, file: &[u8], policy: Policy) {
    assert!(rt; file.len() <= 1_000);
    let view = read_view(alloc, file).expect(rt, "a view");
    assert!(rt; view.grid().policy() == policy);
    expect_written(rt, alloc, &view, file);
}

/// The small transcript in each form and in others, with its policy, or the offset and the reason that it is refused
/// with.
type InForm = (Form, Result<Policy, (u64, u32)>);

const FORMS: [InForm; 11] = [
    (PLAIN, Ok(Policy::Volume)),
    (PRICE, Ok(Policy::Price)),
    (FULL, Ok(Policy::Full)),
    ((b"BEETVW02", &[1]), Err((48, 3))),
    ((b"BEETVW02", &[3]), Err((48, 3))),
    ((b"BEETVW01", &[0]), Err((208, 4))),
    ((b"BEETVW01", &[2]), Err((280, 2))),
    ((b"BEETVW02", &[]), Err((272, 2))),
    ((b"BEETVW00", &[]), Err((0, 1))),
    ((b"BEETVW03", &[0]), Err((0, 1))),
    ((b"BEETWD01", &[]), Err((0, 1))),
];

/// Compares how a transcript is read.
fn expect_read(rt: &impl Abort, alloc: Global, file: &[u8], read: Result<Policy, (u64, u32)>) {
    match read {
        Ok(policy) => expect_again(rt, alloc, file, policy),
        Err(fault) => assert!(rt; fault_of(rt, alloc, file) == Some(fault)),
    }
}

/// Reads the transcript of each case.
fn expect_forms(rt: &impl Abort, alloc: Global, cases: &[InForm]) {
    for (form, read) in cases {
        expect_read(rt, alloc, &file_in(rt, alloc, *form, &SMALL), *read);
    }
}

#[test]
fn forms(rt: HostRuntime) {
    expect_forms(&rt, rt.alloc(), &FORMS);
}

/// Lengths of fronts of the small transcript in a form with a byte more, and the offset and the reason that they are
/// refused with.
type Front = (Form, usize, Option<(u64, u32)>);

const FRONTS: [Front; 12] = [
    (PLAIN, 273, Some((272, 4))),
    (PLAIN, 272, None),
    (PLAIN, 0, Some((0, 1))),
    (PLAIN, 7, Some((0, 1))),
    (PLAIN, 8, Some((8, 2))),
    (PLAIN, 50, Some((48, 2))),
    (PLAIN, 271, Some((264, 2))),
    (FULL, 280, None),
    (FULL, 7, Some((0, 1))),
    (FULL, 48, Some((48, 2))),
    (FULL, 55, Some((48, 2))),
    (FULL, 279, Some((272, 2))),
];

/// Compares the fault of so many bytes of a transcript.
fn expect_front(
    rt: &impl Abort,
    alloc: Global,
    file: &[u8],
    length: usize,
    fault: Option<(u64, u32)>,
) {
    assert!(rt; length <= file.len());
    assert!(rt;
        fault_of(rt, alloc, &file[..length]) == fault,
        "of {length}"
    );
}

/// Reads the front of each case.
fn expect_fronts(rt: &impl Abort, alloc: Global, cases: &[Front]) {
    for (form, length, fault) in cases {
        let mut file = file_in(rt, alloc, *form, &SMALL);
        file.push(0).expect(rt, "memory");
        expect_front(rt, alloc, &file, *length, *fault);
    }
}

#[test]
fn cut_off_and_longer(rt: HostRuntime) {
    expect_fronts(&rt, rt.alloc(), &FRONTS);
}

/// Numbers that a field may not hold.
const OUTSIDE: [Case; 7] = [
    (0, 0, Some((8, 3))),
    (4, 2, Some((40, 3))),
    (BIDDERS, 2_001, Some((48, 3))),
    (6, 4, Some((56, 3))),
    (32, P, Some((264, 3))),
    (28, 0, Some((232, 3))),
    (28, 65, Some((232, 3))),
];

#[test]
fn fields_outside(rt: HostRuntime) {
    expect_faults(&rt, rt.alloc(), &OUTSIDE);
}

/// Lengths that a list may not have.
const TOO_LONG: [Case; 4] = [
    (20, 13, Some((168, 3))),
    (22, 5, Some((184, 3))),
    (24, 2_057, Some((200, 3))),
    (27, 4_097, Some((224, 3))),
];

#[test]
fn lists_too_long(rt: HostRuntime) {
    expect_faults(&rt, rt.alloc(), &TOO_LONG);
    expect_product(&rt, rt.alloc(), 123, (48, 3));
    expect_product(&rt, rt.alloc(), 122, (272, 2));
}

/// Quantities that are too large or out of order, and one that is neither.
const QUANTITIES: [Case; 4] = [
    (16, 1 << 48, Some((136, 3))),
    (17, 10, Some((144, 3))),
    (19, 0, Some((160, 3))),
    (17, 9, None),
];

#[test]
fn quantities_out_of_order(rt: HostRuntime) {
    expect_faults(&rt, rt.alloc(), &QUANTITIES);
}
