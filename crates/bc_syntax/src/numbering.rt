//! The kinds of numbered tokens.

/// What the number of a token counts.
#[derive(Clone, Copy, Debug, PartialEq, Eq)]
pub enum Numbering {
    Number,
    Local,
    Label,
    Variable,
}
