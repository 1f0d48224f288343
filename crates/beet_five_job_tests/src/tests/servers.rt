use super::five::{OUTCOME, ended, files, files_of};
use beet_job_five::five;
use beet_samples::FIVE_SEEDS;
use beet_store::{Held, MemoryShelf};
use std::alloc::Global;
use std::process::Abort;

/// Servers files of five servers, and what is said of an auction with them. `SEED` stands for 64 digits.
const SERVERS: [(&str, &str); 24] = [
    ("", "bad file: x.srv row 1 reason 1\n"),
    (
        "beet-servers,1\n1,seed,SEED\n",
        "bad file: x.srv row 1 reason 1\n",
    ),
    (
        "beet-servers\n1,seed,SEED\n",
        "bad file: x.srv row 1 reason 1\n",
    ),
    (
        "beet-servers,5,5\n1,seed,SEED\n",
        "bad file: x.srv row 1 reason 1\n",
    ),
    ("beet-servers,5\n", "bad file: x.srv row 2 reason 2\n"),
    (
        "beet-servers,5\n2,seed,SEED\n",
        "bad file: x.srv row 2 reason 2\n",
    ),
    (
        "beet-servers,5\nbundles,words\n",
        "bad file: x.srv row 2 reason 2\n",
    ),
    (
        "beet-servers,5\nbundle,words\n",
        "bad file: x.srv row 2 reason 3\n",
    ),
    (
        "beet-servers,5\nbundle\n",
        "bad file: x.srv row 2 reason 3\n",
    ),
    (
        "beet-servers,5\n1,tape,c,m\n",
        "bad file: x.srv row 2 reason 3\n",
    ),
    (
        "beet-servers,5\n1,tape,SEED\n",
        "bad file: x.srv row 2 reason 3\n",
    ),
    (
        "beet-servers,5\n1,seed,0a\n",
        "bad file: x.srv row 2 reason 3\n",
    ),
    (
        "beet-servers,5\n1,seed,SEED0\n",
        "bad file: x.srv row 2 reason 3\n",
    ),
    (
        "beet-servers,5\n1,seed\n",
        "bad file: x.srv row 2 reason 3\n",
    ),
    (
        "beet-servers,5\n1,seed,SEED,SEED\n",
        "bad file: x.srv row 2 reason 3\n",
    ),
    (
        "beet-servers,5\n1,seed,SEED\n",
        "bad file: x.srv row 3 reason 2\n",
    ),
    (
        "beet-servers,5\n1,seed,SEED\nbundle,words\n",
        "bad file: x.srv row 3 reason 2\n",
    ),
    (
        "beet-servers,5\n1,seed,SEED\n2,seed\n",
        "bad file: x.srv row 3 reason 3\n",
    ),
    (
        "beet-servers,5\n1,seed,SEED\n2,seed,SEED\n3,seed,SEED\n",
        "bad file: x.srv row 5 reason 2\n",
    ),
    (
        "beet-servers,5\n1,seed,SEED\n2,seed,SEED\n3,seed,SEED\n4,seed,SEED\n",
        "bad file: x.srv row 6 reason 2\n",
    ),
    (
        "beet-servers,5\n1,seed,SEED\n2,seed,SEED\n3,seed,SEED\n5,seed,SEED\n4,seed,SEED\n",
        "bad file: x.srv row 5 reason 2\n",
    ),
    (
        "beet-servers,5\n1,seed,SEED\n2,seed,SEED\n3,seed,SEED\n4,seed,SEED\n5,tape,c,m\n6\n",
        "bad file: x.srv row 6 reason 3\n",
    ),
    (
        "beet-servers,5\n1,seed,SEED\n2,seed,SEED\n3,seed,SEED\n4,seed,SEED\n5,seed,SEED\n6\n",
        "bad file: x.srv row 7 reason 5\n",
    ),
    (
        "beet-servers,5\n1,seed,SEED\n2,seed,SEED\n3,seed,SEED\n4,seed,SEED\n5,seed,SEED\n",
        OUTCOME,
    ),
];

/// The digits of a seed.
const DIGITS: &str = "0a0A0a0a0a0a0a0a0a0a0a0a0a0a0a0a0a0a0a0a0a0a0a0a0a0a0a0a0a0a0a0a";

/// The files, and a servers file of these bytes.
fn files_with(rt: &impl Abort, alloc: Global, bytes: Vec<u8>) -> Vec<Held> {
    let mut files = files(rt, alloc, &[]);
    let file = Held {
        name: String::from_str(alloc, "x.srv").expect(rt, "memory"),
        bytes,
    };
    files.push(file).expect(rt, "memory");
    files
}

/// What is said of an auction with a servers file of these bytes.
fn said_with(rt: &impl Abort, alloc: Global, bytes: Vec<u8>) -> Vec<u8> {
    let mut shelf = MemoryShelf::new(files_with(rt, alloc, bytes), Vec::new(alloc));
    let files = files_of(("g.auc", "x.srv", "b.book"));
    let (_, said) = ended(alloc, five(alloc, &mut shelf, &files));
    said
}

/// Does the job with a servers file of this text, and compares what is said of it.
fn expect_said(rt: &impl Abort, alloc: Global, text: &str, wanted: &str) {
    let whole = text.replace(alloc, "SEED", DIGITS).expect(rt, "memory");
    let said = said_with(rt, alloc, whole.into_bytes());
    assert!(rt; said.as_slice() == wanted.as_bytes(), "of {text}");
}

#[test]
fn servers_files(rt: HostRuntime) {
    for (text, said) in &SERVERS {
        expect_said(&rt, rt.alloc(), text, said);
    }
}

/// How many bytes the first row has, and each further row with the newline before it.
const HEADER: usize = 14;

const ROW: usize = 72;

/// What is said of so many bytes of a servers file, of which the last newline may be missing.
fn said_of_cut(rt: &impl Abort, alloc: Global, length: usize) -> String {
    let (row, reason) = if length < HEADER {
        (1, 1)
    } else if (length - HEADER) % ROW < 2 {
        ((length - HEADER) / ROW + 2, 2)
    } else {
        ((length - HEADER) / ROW + 2, 3)
    };
    let said = if row == 7 {
        String::from_str(alloc, OUTCOME)
    } else {
        format!(in alloc; "bad file: x.srv row {row} reason {reason}\n")
    };
    said.expect(rt, "memory")
}

#[test]
fn servers_files_are_cut(rt: HostRuntime) {
    let alloc = rt.alloc();
    let (_, text) = FIVE_SEEDS;
    let whole = text.as_bytes();
    for length in 0..whole.len() {
        let cut = Vec::from_slice(alloc, &whole[..length]).expect(&rt, "memory");
        let said = said_with(&rt, alloc, cut);
        let wanted = said_of_cut(&rt, alloc, length);
        assert!(&rt; said.as_slice() == wanted.as_bytes(), "of {length} bytes");
    }
}
