//! The option `--explain`, which each command has.

ghost use Rattle.std.specs.Prelude.{◌≡◌};
ghost use Rattle.std.specs.Str.{bytes_eq};
ghost use Rattle.cli_args.specs.Explaining.{explain_of};

/// When faults are explained on standard error.
#[derive(Clone, Copy, PartialEq, Eq)]
pub enum Explain {
    /// To a person at a terminal.
    Auto,
    /// Always.
    Always,
    /// Never.
    Never,
}

// Whether a text is a given word.
fn is_word(text: &str, word: &str) -> bool
    ensures { result ≡ bytes_eq text.now word.now }
{
    text.as_bytes() == word.as_bytes()
}

/// What a value of `--explain` says: `auto`, `always` or `never`.
pub fn explain_of(value: &str) -> Option<Explain>
    ensures { result ≡ explain_of value.now }
{
    if is_word(value, "auto") {
        return Some(Explain::Auto);
    }
    if is_word(value, "always") {
        return Some(Explain::Always);
    }
    if is_word(value, "never") {
        return Some(Explain::Never);
    }
    None
}

/// What the words of a command line, valid or not, say by the first `--explain` before `--`; `Auto`
/// where there is none, or with another value.
pub fn explain_said(words: &[&str]) -> Explain {
    let mut is_option = false;
    'words: for word in words {
        if is_option {
            return explain_of(*word).unwrap_or(Explain::Auto);
        }
        if *word == "--" {
            return Explain::Auto;
        }
        if let Some(value) = word.strip_prefix("--explain=") {
            return explain_of(value).unwrap_or(Explain::Auto);
        }
        is_option = *word == "--explain";
    }
    Explain::Auto
}
