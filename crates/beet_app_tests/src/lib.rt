//! The tests of beet_app, beet_session_app, beet_sale_app and beet_errand over a shelf and a desk in memory, of a
//! transcript that is put there, and of the words that name sources, which are proved over contracts alone. Other jobs
//! over files are lines of beet_lines.
#![tactic(auto)]

#[cfg(test)]
mod tests;
