//! Texts of units, with their names.
ghost use Rattle.std.specs.Prelude.{◌≡◌, ◌++◌, ◌∷◌, [], OnOk};
ghost use Rattle.std.specs.Option.{option_copied};
ghost use Rattle.bc_source.specs.Sources.{is_of, last_of};

use bc_names::Name;
use std::alloc::{AllocError, Global};
use std::marker::Model;

/// The text of a unit in a file: its name, the number of lines of the file before it, and its bytes. It borrows the bytes.
pub struct Source<'a> {
    name: Name,
    line: usize,
    text: &'a [u8],
}

impl Drop for Source<'_> {
    fn drop(self) {
        let Self {
            name: _,
            line: _,
            text: _,
        } = self;
    }
}

impl<'a> Model for Source<'a> {
    ghost use Rattle.bc_source.specs.Sources.{SourceParts};

    ghost Value = { SourceParts };

    ghost view = { λ s. record { name = s.name; line = s.line; text = s.text.now } };
}

impl<'a> Source<'a> {
    /// Returns the text of a unit that is put under this name, after the first `line` lines of the file.
    pub fn new(name: Name, line: usize, text: &'a [u8]) -> Source<'a>
        ensures { result ≡ record { name = name; line = line; text = text.now } }
    {
        Source { name, line, text }
    }

    /// Returns the name under which the unit is put.
    pub fn name(&self) -> Name
        ensures { result ≡ self.now.name }
    {
        self.name
    }

    /// Returns the number of lines of the file before the text.
    pub fn line(&self) -> usize
        ensures { result ≡ self.now.line }
    {
        self.line
    }

    /// Returns the bytes of the text.
    pub fn text(&self) -> &'a [u8]
        ensures { result.now ≡ self.now.text }
    {
        self.text
    }
}

/// Returns whether a text has this name.
fn is_of(name: &Name, source: &Source<'_>) -> bool
    ensures { result ≡ is_of name.now source.now }
{
    source.name == *name
}

/// The texts of the units of a file, in its order. A contract sees them as a list.
pub struct Sources<'a> {
    texts: Vec<Source<'a>>,
}

impl Drop for Sources<'_> {
    fn drop(self) {
        let Self { texts: _ } = self;
    }
}

impl<'a> Model for Sources<'a> {
    ghost use Rattle.std.specs.Prelude.{List};
    ghost use Rattle.bc_source.specs.Sources.{SourceParts};

    ghost Value = { List SourceParts };

    ghost view = { λ s. s.texts.items };
}

impl<'a> Sources<'a> {
    /// Returns an empty list of texts.
    pub fn new(alloc: Global) -> Sources<'a>
        ensures { result ≡ [] }
    {
        Sources {
            texts: Vec::new(alloc),
        }
    }

    /// Appends a text.
    pub fn push(&mut self, source: Source<'a>) -> Result<(), AllocError>
        ensures { OnOk result (self.new ≡ self.old ++ source.entry ∷ []) }
    {
        self.texts.push(source)?;
        Ok(())
    }

    /// Returns the last text of a name, or `None` if there is none.
    pub fn last_of(&self, name: &Name) -> Option<&Source<'a>>
        ensures { option_copied result ≡ last_of name.now self.now }
    {
        self.texts.iter().rev().find(|source| is_of(name, source))
    }
}
