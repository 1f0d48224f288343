//! Where the words of the servers come from.

use beet_field::Trio;
use beet_forms::Name;

/// Where a server's words come from.
#[derive(Debug, Drop)]
pub enum ServerSource {
    /// The generator with this seed.
    Seed([u8; 32]),
    /// The tape files of these names.
    Tapes { coefficients: Name, masks: Name },
}

/// Where all words come from.
#[derive(Debug, Drop)]
pub enum Servers {
    /// Each server has a source of its own.
    Three(Trio<ServerSource>),
    /// The bundle of this name has the words of the servers and of the bidders.
    Bundle(Name),
}
