//! Tables of sentences.

/// The text of the first row with this name.
pub fn told_of<'a>(rows: &[(&[&str], &'a str)], name: &str) -> Option<&'a str> {
    'rows: for (names, told) in rows {
        if names.contains(&name) {
            return Some(*told);
        }
    }
    None
}
