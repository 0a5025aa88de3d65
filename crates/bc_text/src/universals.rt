//! The names of universal regions.
ghost use Rattle.std.specs.Prelude.{◌≡◌, ◌≤◌, ◌<◌, length, IfSome};
ghost use Rattle.std.specs.List.{position_from};
ghost use Rattle.std.specs.Str.{bytes_eq};
ghost use Rattle.bc_syntax.specs.declared.syntax.RegionName.{RegionName};
ghost use Rattle.bc_text.specs.Universals.{number_of};

use bc_syntax::RegionName;

/// Returns the index of a name among the declared regions.
fn declared_at(regions: &[RegionName], name: &[u8]) -> Option<usize>
    ensures value { result ≡ position_from (λ (other : RegionName). bytes_eq other.bytes name.now) 0 regions.now }
    ensures below { IfSome result (λ index. index < length regions.now) }
{
    regions
        .iter()
        .position(|other| other.bytes.as_slice() == name)
}

/// Returns the number of the universal region with this name, or `None` if there is none.
#[tactic(auto, unfolding(crate::specs::Universals::number_of))]
pub fn number_of(regions: &[RegionName], name: &[u8]) -> Option<u8>
    requires { length regions.now ≤ 15 }
    ensures { result ≡ number_of regions.now name.now }
{
    if name == b"static".as_slice() {
        return Some(0);
    }
    match declared_at(regions, name) {
        Some(index) => Some((index + 1) as u8),
        None => None,
    }
}
