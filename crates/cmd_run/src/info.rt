//! What `info` shows of a file.

ghost use Rattle.std.specs.Prelude.{◌≡◌, ◌≢◌, ◌++◌, Err, IfOk, string_bytes, Result};
ghost use Rattle.std.specs.List.{flat_map};
ghost use Rattle.elf_read.specs.SymbolTable.{symbols_of};
ghost use Rattle.cmd_run.specs.Info.{info_of, library_name, rights_text, segment_entry, segment_line, symbol_entry, symbol_line, symbols_found, symbols_text, AreShown, IsByAddress, NamesLibrary, ShowsFacts};

use elf_read::{SymFault, Symbol, symbols};
use image::{Image, Rights, Segment};
use isa_names::Word;
use object_library::{Kind, certify};
use std::alloc::{AllocError, Allocator};
use std::fmt;

/// In which order symbols are shown.
#[derive(Clone, Copy, PartialEq, Eq)]
pub enum SymbolOrder {
    /// That of the file.
    OfFile,
    /// By rising address; those of one address in the file's order.
    ByAddress,
}

/// Rights, shown as `rwx` with a dash for each missing one.
#[derive(Clone, Copy)]
pub struct RightsText(pub Rights);

impl fmt::Display for RightsText {
    ghost use Rattle.std.specs.Prelude.{Some};

    ghost output = { λ r. Some (rights_text r.0.0) };

    fn fmt<W: fmt::Write>(&self, f: &mut fmt::Formatter<W>) -> fmt::Result {
        let read = if self.0.grants(Rights::READ) {
            "r"
        } else {
            "-"
        };
        let write = if self.0.grants(Rights::WRITE) {
            "w"
        } else {
            "-"
        };
        let execute = if self.0.grants(Rights::EXECUTE) {
            "x"
        } else {
            "-"
        };
        write!(f, "{read}{write}{execute}")
    }
}

// A segment, shown as a line without LF.
#[derive(Clone, Copy)]
struct SegmentLine {
    base: u32,
    size: u32,
    rights: Rights,
}

impl fmt::Display for SegmentLine {
    ghost use Rattle.std.specs.Prelude.{Some};

    ghost output = { λ l. Some (segment_line l.base l.size l.rights.0) };

    fn fmt<W: fmt::Write>(&self, f: &mut fmt::Formatter<W>) -> fmt::Result {
        let base = Word(self.base);
        let size = self.size;
        let rights = RightsText(self.rights);
        write!(f, "segment {base} {size} {rights}")
    }
}

// A symbol, shown as a line without LF.
#[derive(Clone, Copy)]
struct SymbolLine<'a> {
    address: u32,
    name: &'a str,
}

impl<'a> fmt::Display for SymbolLine<'a> {
    ghost use Rattle.std.specs.Prelude.{Some};

    ghost output = { λ l. Some (symbol_line l.address l.name.now) };

    fn fmt<W: fmt::Write>(&self, f: &mut fmt::Formatter<W>) -> fmt::Result {
        let address = Word(self.address);
        let name = self.name;
        write!(f, "symbol {address} {name}")
    }
}

// Appends the line of a segment: base, size in bytes and rights.
fn push_segment<A: Allocator>(text: &mut String<A>, segment: &Segment<A>) -> Result<(), AllocError>
    ensures { IfOk result (λ _.
        string_bytes text.new ≡ string_bytes text.old ++ segment_entry segment.now) }
{
    let line = SegmentLine {
        base: segment.base,
        size: segment.size,
        rights: segment.rights,
    };
    writeln!(text, "{line}")?;
    Ok(())
}

// Appends the lines of segments.
fn push_segments<A: Allocator>(
    text: &mut String<A>,
    segments: &[Segment<A>],
) -> Result<(), AllocError>
    ensures { IfOk result (λ _.
        string_bytes text.new ≡ string_bytes text.old ++ flat_map segment_entry segments.now) }
{
    'segments: for segment in segments {
        push_segment(text, segment)?;
    }
    Ok(())
}

// Appends the line of a symbol: address and name.
fn push_symbol<A: Allocator>(text: &mut String<A>, symbol: &Symbol<A>) -> Result<(), AllocError>
    ensures { IfOk result (λ _.
        string_bytes text.new ≡ string_bytes text.old ++ symbol_entry symbol.now) }
{
    let line = SymbolLine {
        address: symbol.address,
        name: symbol.name.as_str(),
    };
    writeln!(text, "{line}")?;
    Ok(())
}

// Appends the lines of symbols.
fn push_symbols<A: Allocator>(text: &mut String<A>, symbols: &[Symbol<A>]) -> Result<(), AllocError>
    ensures { IfOk result (λ _.
        string_bytes text.new ≡ string_bytes text.old ++ flat_map symbol_entry symbols.now) }
{
    'symbols: for symbol in symbols {
        push_symbol(text, symbol)?;
    }
    Ok(())
}

// The symbols by rising address; those of one address stay in their order.
fn by_address<A: Allocator>(symbols: Vec<Symbol<A>, A>) -> Result<Vec<Symbol<A>, A>, AllocError>
    ensures { IfOk result (λ sorted. IsByAddress symbols.items sorted.items) }
{
    let mut sorted = symbols;
    sorted.sort_by_key(|symbol| symbol.address)?;
    Ok(sorted)
}

/// The symbols of a file in an order, or why it has none.
pub fn shown_symbols<A: Allocator + Copy>(
    alloc: A,
    bytes: &[u8],
    order: SymbolOrder,
) -> Result<Vec<Symbol<A>, A>, SymFault>
    ensures { result ≢ Err SymFault.Memory
        → AreShown order (symbols_of bytes.now) (symbols_found result) }
{
    let found = symbols(alloc, bytes)?;
    match order {
        SymbolOrder::OfFile => Ok(found),
        SymbolOrder::ByAddress => match by_address(found) {
            Ok(sorted) => Ok(sorted),
            Err(AllocError) => Err(SymFault::Memory),
        },
    }
}

// Appends symbols, or why a file has none. Fails when out of memory, or if the symbols did.
fn push_found<A: Allocator>(
    text: &mut String<A>,
    found: Result<Vec<Symbol<A>, A>, SymFault>,
) -> Result<(), AllocError>
    ensures added { IfOk result (λ _.
        string_bytes text.new ≡ string_bytes text.old ++ symbols_text (symbols_found found)) }
    ensures known { IfOk result (λ _. found ≢ Err SymFault.Memory) }
{
    match found {
        Ok(symbols) if symbols.is_empty() => writeln!(text, "symbols none")?,
        Ok(symbols) => push_symbols(text, &symbols)?,
        Err(SymFault::NoTable) => writeln!(text, "symbols none")?,
        Err(SymFault::BadTable) => writeln!(text, "symbols bad")?,
        Err(SymFault::Memory) => return Err(AllocError),
    }
    Ok(())
}

/// The kind whose object the image is, or `None`.
#[tactic(auto, using(crate::proofs::InfoLemmas::names_none))]
pub fn library_of<A: Allocator>(image: &Image<A>) -> Option<Kind>
    ensures { NamesLibrary image.now result }
{
    if certify(Kind::Swap, image) {
        return Some(Kind::Swap);
    }
    if certify(Kind::Add, image) {
        return Some(Kind::Add);
    }
    if certify(Kind::LrSc, image) {
        return Some(Kind::LrSc);
    }
    if certify(Kind::AdoptCommit, image) {
        return Some(Kind::AdoptCommit);
    }
    if certify(Kind::Rounds, image) {
        return Some(Kind::Rounds);
    }
    None
}

// The name of a kind, or `none`.
fn library_name(library: Option<Kind>) -> &'static str
    ensures { result.now ≡ library_name library }
{
    match library {
        Some(kind) => kind.name(),
        None => "none",
    }
}

// The facts of an image with these symbols, given the kind of object that it is.
#[tactic(auto, unfolding(crate::specs::Info::info_of))]
fn facts_text<A: Allocator + Copy>(
    alloc: A,
    image: &Image<A>,
    found: Result<Vec<Symbol<A>, A>, SymFault>,
    library: Option<Kind>,
) -> Result<String<A>, AllocError>
    ensures text { IfOk result (λ text.
        string_bytes text ≡ info_of image.now (symbols_found found) library) }
    ensures known { IfOk result (λ _. found ≢ Err SymFault.Memory) }
{
    let mut text = String::new(alloc);
    let entry = Word(image.entry());
    writeln!(text, "entry {entry}")?;
    push_segments(&mut text, image.segments())?;
    push_found(&mut text, found)?;
    let name = library_name(library);
    writeln!(text, "library {name}")?;
    Ok(text)
}

/// The facts of a file's image: its entry, its segments in the file's order with their sizes in
/// bytes and their rights, the file's symbols in an order, and the kind of object that it is.
pub fn info_text<A: Allocator + Copy>(
    alloc: A,
    image: &Image<A>,
    bytes: &[u8],
    order: SymbolOrder,
) -> Result<String<A>, AllocError>
    ensures { IfOk result (λ text.
        ShowsFacts order image.now (symbols_of bytes.now) (string_bytes text)) }
{
    let library = library_of(image);
    let found = shown_symbols(alloc, bytes, order);
    let text = facts_text(alloc, image, found, library)?;
    Ok(text)
}
