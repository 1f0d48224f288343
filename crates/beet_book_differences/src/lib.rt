//! Two books that are compared: the first difference by which one who knows some bidders can tell them apart, and the
//! refusal by its line. One server of three compares them so, and two of five.
#![tactic(auto)]

mod refusing;

pub use refusing::refuse_books;

/// The names of the files of a job that compares two books over one auction, and the name with which those that it puts
/// begin.
#[derive(Clone, Copy)]
pub struct WorldsFiles<'a> {
    pub auction: &'a str,
    pub servers: &'a str,
    pub first: &'a str,
    pub second: &'a str,
    pub out: &'a str,
}
