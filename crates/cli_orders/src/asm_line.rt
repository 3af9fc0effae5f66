//! The command `asm`.

use clap::ArgMatches;
use cli_args::{text_of, texts_of};
use std::alloc::{AllocError, Global};

/// `asm [--out OUT] IN...`: assembles sources, in order, and prints the listing or writes an ELF
/// file.
#[derive(Drop)]
pub struct AsmOrder<'a> {
    /// The output file's path; without it the listing is printed.
    pub out: Option<&'a str>,
    /// The sources' paths.
    pub sources: Vec<&'a str>,
}

/// The order in clap's matches.
pub(crate) fn asm_order<'a>(
    alloc: Global,
    matches: &ArgMatches<'a>,
) -> Result<Option<AsmOrder<'a>>, AllocError> {
    let Some(sources) = texts_of(alloc, matches, "IN")? else {
        return Ok(None);
    };
    Ok(Some(AsmOrder {
        out: text_of(matches, "out"),
        sources,
    }))
}
