//! The command `lib`.

use clap::ArgMatches;
use cli_args::text_of;

/// `lib K`: prints the source of an object of the library.
#[derive(Drop)]
pub struct LibOrder<'a> {
    /// The object's name.
    pub object: &'a str,
}

/// The order in clap's matches.
pub(crate) fn lib_order<'a>(matches: &ArgMatches<'a>) -> Option<LibOrder<'a>> {
    Some(LibOrder {
        object: text_of(matches, "K")?,
    })
}
