//! The commands of one file: `list` and `info`.

use clap::ArgMatches;
use cli_args::{is_set, text_of};

/// `list FILE`: lists the executable segments of an ELF file.
#[derive(Drop)]
pub struct ListOrder<'a> {
    /// The file's path.
    pub file: &'a str,
}

/// `info [--by-address] [--json] FILE`: shows the entry, segments and symbols of an ELF file.
#[derive(Drop)]
pub struct InfoOrder<'a> {
    /// Whether the symbols are shown by rising address.
    pub by_address: bool,
    /// Whether an object of JSON is printed in place of lines.
    pub json: bool,
    /// The file's path.
    pub file: &'a str,
}

/// The order of `list` in clap's matches.
pub(crate) fn list_order<'a>(matches: &ArgMatches<'a>) -> Option<ListOrder<'a>> {
    Some(ListOrder {
        file: text_of(matches, "FILE")?,
    })
}

/// The order of `info` in clap's matches.
pub(crate) fn info_order<'a>(matches: &ArgMatches<'a>) -> Option<InfoOrder<'a>> {
    Some(InfoOrder {
        by_address: is_set(matches, "by-address"),
        json: is_set(matches, "json"),
        file: text_of(matches, "FILE")?,
    })
}
