//! Names of regions that are declared in one list.
ghost use Rattle.std.specs.Prelude.{◌≡◌};
ghost use Rattle.std.specs.List.{list_any};
ghost use Rattle.std.specs.Str.{bytes_eq};
ghost use Rattle.bc_syntax.specs.Fits as spec;
ghost use Rattle.bc_syntax.specs.declared.syntax.RegionName.{RegionName};

use crate::syntax::RegionName;
use crate::words::is_region_name;

fn is_among(before: &[RegionName], name: &[u8]) -> bool
    ensures { result ≡ list_any (λ (other : RegionName). bytes_eq other.bytes name.now) before.now }
{
    before.iter().any(|other| other.bytes.as_slice() == name)
}

/// Returns whether a region may be declared after those before it: its name is well formed, has at most 16 bytes, and is neither `static`
/// nor among theirs.
pub fn is_new(before: &[RegionName], name: &RegionName) -> bool
    ensures { result ≡ spec.is_new before.now name.now }
{
    let bytes = name.bytes.as_slice();
    is_region_name(bytes)
        && bytes.len() <= 16
        && bytes != b"static".as_slice()
        && !is_among(before, bytes)
}
