//! The call that a header line asks for.
ghost use Rattle.std.specs.Prelude.{◌≡◌, ◌++◌, ℕ, List, IfSome, IfNone};
ghost use Rattle.bc_names.specs.Names.{NameParts, IsName, name_text};
ghost use Rattle.cli_file.specs.declared.heading.Heading.{Heading};
ghost use Rattle.cli_file.specs.Headings.{IsHeading};

use bc_names::Name;

/// The call that a header line asks for: it stores the declarations of the section's text, puts the unit of the text under a name, removes
/// the body of a name, asks for the outcome of a name, or asks for all roots.
#[derive(Clone, Copy, Debug)]
pub enum Heading {
    Types,
    Put(Name),
    Remove(Name),
    Ask(Name),
    All,
}

/// Returns what follows this beginning in a text, or `None` exactly if the text does not begin with it.
pub fn behind<'a>(text: &'a [u8], beginning: &[u8]) -> Option<&'a [u8]>
    ensures found { IfSome result (λ rest. text.now ≡ beginning.now ++ rest.now) }
    ensures none { IfNone result ((rest : List ℕ) → ¬ (text.now ≡ beginning.now ++ rest)) }
{
    text.strip_prefix(beginning)
}

/// Returns the name after a verb, or `None` exactly if the words are not the verb and a name.
fn read_named(words: &[u8], verb: &[u8]) -> Option<Name>
    ensures found { IfSome result (λ name. IsName name × (words.now ≡ verb.now ++ name_text name)) }
    ensures none { IfNone result ((name : NameParts) → IsName name → ¬ (words.now ≡ verb.now ++ name_text name)) }
{
    Name::read(behind(words, verb)?)
}

/// Returns the heading that some words spell: those after the `@` and, if the command has sessions, the number of one. It is `types` or
/// `askall`, or `put`, `remove` or `ask` with one space and a name. Returns `None` exactly if the words are no heading.
pub fn read_heading(words: &[u8]) -> Option<Heading>
    ensures found { IfSome result (λ heading. IsHeading heading words.now) }
    ensures none { IfNone result ((heading : Heading) → ¬ IsHeading heading words.now) }
{
    if words == b"types".as_slice() {
        return Some(Heading::Types);
    }
    if words == b"askall".as_slice() {
        return Some(Heading::All);
    }
    if let Some(name) = read_named(words, b"put ") {
        return Some(Heading::Put(name));
    }
    if let Some(name) = read_named(words, b"remove ") {
        return Some(Heading::Remove(name));
    }
    Some(Heading::Ask(read_named(words, b"ask ")?))
}
