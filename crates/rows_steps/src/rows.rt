//! Rows of a file: `#` begins a row, with its name to the end of the line; then come its sections, each with a line that begins with `@`,
//! and a text.

/// Returns the name of a row, and its sections.
pub fn named(row: &str) -> (&str, &str) {
    row.split_once('\n').unwrap_or((row, ""))
}

/// Returns the header of a section, which is its line without the `@`, and its text.
pub fn headed(section: &str) -> (&str, &[u8]) {
    let (header, text) = named(section);
    (header, text.as_bytes())
}

/// Returns the text of the first section with this header, or an empty one if there is none.
pub fn text_under<'a>(sections: &'a str, wanted: &str) -> &'a [u8] {
    for section in sections.split('@').skip(1) {
        let (header, text) = headed(section);
        if header == wanted {
            return text;
        }
    }
    &[]
}
