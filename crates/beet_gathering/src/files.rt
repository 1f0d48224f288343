//! The names of the files of an auction of envelopes.

/// The names of the files of an auction of envelopes: that of the auction itself, of its servers, and of the list of
/// bidders.
#[derive(Clone, Copy)]
pub struct ListFiles<'a> {
    pub auction: &'a str,
    pub servers: &'a str,
    pub list: &'a str,
}
