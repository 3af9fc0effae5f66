//! The items of a text: the longest runs without blanks.

ghost use Rattle.std.specs.Prelude.{◌≡◌, ◌≤◌, [], true, length, drop, IfNone, IfSome};
ghost use Rattle.std.specs.List.{prefix_len, position_or_len};
ghost use Rattle.text_items.specs.Items.{is_blank, items_from, IsFirstItem};

/// Whether a byte separates items: space, tab, LF or CR.
#[inline]
pub fn is_blank(byte: u8) -> bool
    ensures { result ≡ is_blank byte }
{
    matches!(byte, b' ' | b'\t' | b'\n' | b'\r')
}

// Whether the front is one blank, one other byte, and then the end or a blank. Only bytes up to the
// space can be blanks.
#[inline]
fn is_short(rest: &[u8]) -> bool
    ensures blanks { result ≡ true → prefix_len is_blank rest.now ≡ 1 }
    ensures bytes { result ≡ true → position_or_len is_blank (drop 1 rest.now) ≡ 1 }
    ensures within { result ≡ true → 2 ≤ length rest.now }
{
    match rest {
        [blank, byte] => is_blank(*blank) && *byte > b' ',
        [blank, byte, after, ..] => is_blank(*blank) && *byte > b' ' && is_blank(*after),
        _ => false,
    }
}

/// The begin and end of the first item that begins at or after `from`. An item is a longest run of
/// bytes that aren't blanks.
#[inline]
pub fn next_item(text: &[u8], from: usize) -> Option<(usize, usize)>
    requires { from ≤ length text.now }
    ensures none { IfNone result (items_from from text.now ≡ []) }
    ensures some { IfSome result (λ span. IsFirstItem from text.now span.0 span.1) }
{
    let (_, rest) = text.split_at(from);
    // Most items of most texts have this shape and need no loop.
    if is_short(rest) {
        let begin = from + 1;
        return Some((begin, begin + 1));
    }
    find_item(text, from)
}

// As `next_item`, for items of any shape.
#[inline(never)]
#[cold]
fn find_item(text: &[u8], from: usize) -> Option<(usize, usize)>
    requires { from ≤ length text.now }
    ensures none { IfNone result (items_from from text.now ≡ []) }
    ensures some { IfSome result (λ span. IsFirstItem from text.now span.0 span.1) }
{
    let (_, rest) = text.split_at(from);
    let begin = from + blank_len(rest);
    let (_, item) = text.split_at(begin);
    let end = begin + item_len(item);
    if begin == end {
        return None;
    }
    Some((begin, end))
}

// Number of blanks at the front.
fn blank_len(rest: &[u8]) -> usize
    ensures count { result ≡ prefix_len is_blank rest.now }
    ensures within { result ≤ length rest.now }
{
    rest.iter().take_while(|byte| is_blank(**byte)).count()
}

// Number of bytes before the first blank.
fn item_len(rest: &[u8]) -> usize
    ensures count { result ≡ position_or_len is_blank rest.now }
    ensures within { result ≤ length rest.now }
{
    rest.iter().take_while(|byte| !is_blank(**byte)).count()
}
