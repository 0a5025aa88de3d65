//! Names: a root and its segments, and how they are ordered.
ghost use Rattle.std.specs.Prelude.{◌≡◌, ◌+◌, ◌≤◌, ◌<◌, ℕ, List, [], ◌∷◌, ◌++◌, IfSome, IsSome, Some, None, length, take, drop, slice_index, false, true, nat_le, nat_lt, ◌&&◌, if◌then◌else◌};
ghost use Rattle.std.proofs.Common.{rules};
ghost use Rattle.std.specs.Char.{is_ascii_digit};
ghost use Rattle.std.specs.Cmp.{partial_order_from_own_ties};
ghost use Rattle.std.specs.Cmp.Rules.{comparing};
ghost use Rattle.std.specs.Ordering.{as_partial_cmp};
ghost use Rattle.bc_names.specs.Names.{IsName, NameParts, begins_root, is_root, first_segment, name_text, name_order, is_same_name, is_within};

use bc_syntax::{are_run_bytes, byte_at, from, run};
use std::cmp::Ordering;
use std::fmt;
use std::marker::Model;

/// The name of a body. Its root is 1 to 32 letters, digits and `_`, and does not begin with a digit. Up to seven segments follow, closure
/// numbers from 0 to 63. Names are ordered by the bytes of the root, then by the segments as numbers; a name comes before those that begin
/// with it.
#[derive(Clone, Copy, Debug)]
pub struct Name {
    root: [u8; 32],
    root_len: u8,
    segments: [u8; 7],
    depth: u8,
}

impl Model for Name {
    ghost use Rattle.bc_names.specs.Names.{NameParts};

    ghost Value = { NameParts };

    ghost use Rattle.bc_names.specs.Stored.{parts_of, IsStored, cells_of, gives_back};

    ghost view = { parts_of };

    ghost invariant = { IsStored };

    ghost inverse = { cells_of };

    ghost inverse_ok = { gives_back };
}

fn begins_root(byte: u8) -> bool
    ensures { result ≡ begins_root byte }
{
    byte.is_ascii_alphabetic() || byte == b'_'
}

fn is_root(bytes: &[u8]) -> bool
    ensures { result ≡ is_root bytes.now }
{
    1 <= bytes.len() && bytes.len() <= 32 && begins_root(byte_at(bytes, 0)) && are_run_bytes(bytes)
}

/// Returns the number of the segment at the front and the length of its spelling, or `None` if there is no segment.
fn first_segment(bytes: &[u8]) -> Option<(u8, usize)>
    ensures { result ≡ first_segment bytes.now }
{
    let tens = byte_at(bytes, 1);
    let ones = byte_at(bytes, 2);
    if byte_at(bytes, 0) != b'/' || !tens.is_ascii_digit() {
        return None;
    }
    if !ones.is_ascii_digit() || tens == b'0' {
        return Some((tens - b'0', 2));
    }
    Some((10 * (tens - b'0') + (ones - b'0'), 3))
}

impl Name {
    /// Returns the name that the bytes spell: a root, then a `/` and a number for each segment. Returns `None` exactly if they spell none.
    pub fn read(bytes: &[u8]) -> Option<Name>
        // The bytes spell the name that is returned.
        ensures found { IfSome result (λ name. IsName name × (bytes.now ≡ name_text name)) }
        // A name that the bytes spell is returned.
        ensures only { (name : NameParts) → IsName name → bytes.now ≡ name_text name → result ≡ Some name }
    {
        let root = run(bytes);
        let mut name = Name::of_root(root)?;
        let mut rest = from(bytes, root.len());
        while let Some((number, len)) = first_segment(rest) {
            name = name.child(number)?;
            rest = from(rest, len);
        }
        rest.is_empty().then_some(name)
    }

    /// Returns the name with this root and no segments, or `None` exactly if the bytes are not a root.
    fn of_root(bytes: &[u8]) -> Option<Name>
        ensures { result ≡ (if is_root bytes.now then Some (record { root = bytes.now; segments = [] }) else None) }
    {
        if !is_root(bytes) {
            return None;
        }
        let mut root = [0; 32];
        root[..bytes.len()].copy_from_slice(bytes);
        Some(Name {
            root,
            root_len: bytes.len() as u8,
            segments: [0; 7],
            depth: 0,
        })
    }

    /// Returns the name of a closure of this one, by the closure's number. Returns `None` exactly if the number is above 63 or this name
    /// has seven segments.
    pub fn child(self, number: u8) -> Option<Name>
        ensures { result ≡ (if nat_le number 63 && nat_lt (length self.segments) 7
            then Some (record { root = self.root; segments = self.segments ++ number ∷ [] }) else None) }
    {
        let mut child = self;
        if number > 63 || child.depth >= 7 {
            return None;
        }
        child.segments[usize::from(child.depth)] = number;
        child.depth += 1;
        Some(child)
    }

    /// Returns the bytes of the root.
    pub fn root(&self) -> &[u8]
        ensures value { result.now ≡ self.now.root }
        ensures name { IsName self.now }
    {
        &self.root[..usize::from(self.root_len)]
    }

    /// Returns the root as text.
    pub fn root_str(&self) -> &str
        ensures { result.now ≡ self.now.root }
    {
        str::from_utf8(self.root()).unwrap()
    }

    /// Returns the segments as numbers.
    pub fn segments(&self) -> &[u8]
        ensures { result.now ≡ self.now.segments }
    {
        &self.segments[..usize::from(self.depth)]
    }

    /// Returns the number of segments.
    pub fn depth(&self) -> usize
        ensures { result ≡ length self.now.segments }
    {
        self.segments().len()
    }

    /// Returns whether another name is this one, or begins with it and `/`.
    pub fn holds(&self, other: &Name) -> bool
        ensures { result ≡ is_within self.now other.now }
    {
        self.root() == other.root() && other.segments().starts_with(self.segments())
    }

    /// Returns the name with its first `depth` segments alone, or with all if it has no more.
    pub fn beginning(&self, depth: usize) -> Name
        ensures { result ≡ record { root = self.now.root; segments = take depth self.now.segments } }
    {
        let depth = depth.min(usize::from(self.depth));
        let mut segments = [0; 7];
        segments[..depth].copy_from_slice(&self.segments[..depth]);
        Name {
            root: self.root,
            root_len: self.root_len,
            segments,
            depth: depth as u8,
        }
    }
}

impl PartialEq for Name {
    ghost eq = { is_same_name };

    ghost laws = { Prim.search (comparing, rules) };

    fn eq(&self, other: &Name) -> bool {
        self.root() == other.root() && self.segments() == other.segments()
    }
}

impl Eq for Name {
    ghost laws = { Prim.search (comparing, rules) };
}

impl Ord for Name {
    ghost cmp = { name_order };

    ghost total = { Prim.search (comparing, rules) };

    ghost matches_partial_cmp = { Prim.search (comparing, rules) };

    ghost matches_eq = { Prim.search (comparing, rules) };

    fn cmp(&self, other: &Name) -> Ordering {
        self.root()
            .cmp(other.root())
            .then_with(|| self.segments().cmp(other.segments()))
    }
}

impl PartialOrd for Name {
    ghost partial_cmp = { as_partial_cmp name_order };

    ghost laws = { partial_order_from_own_ties (Prim.search (comparing, rules)) (Prim.search (comparing, rules)) };

    fn partial_cmp(&self, other: &Name) -> Option<Ordering> {
        Some(self.cmp(other))
    }
}

impl fmt::Display for Name {
    ghost output = { λ name. Some (name_text name) };

    fn fmt<W: fmt::Write>(&self, f: &mut fmt::Formatter<W>) -> fmt::Result {
        f.write_str(self.root_str())?;
        for segment in self.segments() {
            write!(f, "/{segment}")?;
        }
        Ok(())
    }
}
