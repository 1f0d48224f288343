//! The tests of files, words and books: of beet_field, beet_shamir, beet_store, beet_forms, beet_words, beet_bids,
//! beet_book, beet_farmer, beet_sale_file and beet_notice, which are proved over their contracts alone.
#![tactic(auto)]

#[cfg(test)]
mod tests;
