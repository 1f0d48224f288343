//! The words of two worlds of any script whose masks are turned and whose inputs are dealt.
#![tactic(auto)]

mod moving;

pub use moving::move_dealer;
