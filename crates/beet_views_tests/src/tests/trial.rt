use beet_job_trial::numbers_of_words;
use std::process::Abort;

/// Two words, and the numbers that they are.
type Pair = (&'static str, &'static str, Option<(u32, u32)>);

const PAIRS: [Pair; 11] = [
    ("2000", "4096", Some((2000, 4096))),
    ("0", "1", Some((0, 1))),
    ("2001", "1", None),
    ("0", "4097", None),
    ("0", "0", None),
    ("00", "1", None),
    ("0", "01", None),
    ("", "1", None),
    ("0", "", None),
    ("-1", "1", None),
    ("1", "1x", None),
];

/// Reads the words of each case.
fn expect_numbers(rt: &impl Abort, cases: &[Pair]) {
    for (bidders, prices, numbers) in cases {
        assert!(rt;
            numbers_of_words(bidders, prices) == *numbers,
            "of {bidders} {prices}"
        );
    }
}

#[test]
fn words_at_their_limits(rt: HostRuntime) {
    expect_numbers(&rt, &PAIRS);
}
