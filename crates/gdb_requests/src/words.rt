//! Words of packets.
ghost use Rattle.std.specs.Prelude.{◌≡◌, true, false, drop, length, IfNone, IfSome};
ghost use Rattle.std.specs.Str.{bytes_eq};
ghost use Rattle.gdb_requests.specs.Words.{begins_with};

/// Whether a text is a word.
pub fn is_word(text: &[u8], word: &str) -> bool
    ensures { result ≡ bytes_eq text.now word.now }
{
    text == word.as_bytes()
}

/// What stands behind a word, if a text begins with it.
pub fn behind<'a>(text: &'a [u8], word: &str) -> Option<&'a [u8]>
    ensures absent { IfNone result (begins_with word.now text.now ≡ false) }
    ensures there { IfSome result (λ rest. begins_with word.now text.now ≡ true) }
    ensures rest { IfSome result (λ rest. rest.now ≡ drop (length word.now) text.now) }
{
    text.strip_prefix(word.as_bytes())
}
