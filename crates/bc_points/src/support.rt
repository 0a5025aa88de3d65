//! Supporting prefixes, through the fields of structs (RFC 2094, "Reborrow constraints").
ghost use Rattle.std.specs.Prelude.{◌≡◌};
ghost use Rattle.bc_points.specs.Supports.{goes_on_mutable as going_on, supports as support, supports_behind as support_behind, supports_from as support_from};

use crate::place_ref::PlaceRef;
use crate::prefix::rest_of;
use bc_mir::{Typed, passes_only_mutable};
use bc_syntax::{Base, Projection, Reference};
use bc_types::GoodTypes;

/// Returns whether `projections` lead to a type from which `rest` dereferences only mutable references. Regions do not matter for this, so
/// a field has its declared type.
fn supports_behind(
    types: &GoodTypes,
    projections: &[Projection],
    rest: &[Projection],
    references: &[Reference],
    base: &Base,
) -> bool
    ensures { result ≡ support_behind types.now projections.now rest.now references.now base.now }
{
    match projections {
        [] => passes_only_mutable(types, rest, references, base),
        [Projection::Deref, later @ ..] => match references {
            [] => false,
            [_, more @ ..] => supports_behind(types, later, rest, more, base),
        },
        [Projection::Field(field), later @ ..] => match references {
            [] => match base {
                Base::Int | Base::Closure(_) => false,
                Base::Struct(instance) => match types.declared_field(&instance.name, *field) {
                    Some(ty) => {
                        supports_behind(types, later, rest, ty.references.as_slice(), &ty.base)
                    }
                    None => false,
                },
            },
            [_, ..] => false,
        },
    }
}

fn supports_from(typed: &Typed, prefix: &PlaceRef<'_>, rest: &[Projection]) -> bool
    ensures { result ≡ support_from typed.now prefix.now rest.now }
{
    match typed.locals().get(usize::from(prefix.local())) {
        Some(local) => supports_behind(
            typed.types(),
            prefix.projections(),
            rest,
            local.references.as_slice(),
            &local.base,
        ),
        None => false,
    }
}

fn goes_on_mutable(typed: &Typed, prefix: &PlaceRef<'_>, rest: &[Projection]) -> bool
    ensures { result ≡ going_on typed.now prefix.now rest.now }
{
    supports_from(typed, prefix, rest)
}

/// Returns whether the first place is a prefix of the second, and the second dereferences no shared reference after it. (RFC 2094,
/// "Reborrow constraints".)
pub fn supports(typed: &Typed, prefix: &PlaceRef<'_>, place: &PlaceRef<'_>) -> bool
    ensures { result ≡ support typed.now prefix.now place.now }
{
    match rest_of(prefix, place) {
        Some(rest) => goes_on_mutable(typed, prefix, rest),
        None => false,
    }
}
