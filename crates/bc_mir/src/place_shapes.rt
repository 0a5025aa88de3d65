//! Shapes of places. No typing rule depends on regions, so a field has its declared type.
ghost use Rattle.std.specs.Prelude.{◌≡◌};
ghost use Rattle.std.specs.Option.{option_map};
ghost use Rattle.bc_shapes.specs.Shapes.{blanked};
ghost use Rattle.bc_bodies.specs.PlaceTypes.{type_behind, type_of_place};
ghost use Rattle.bc_mir.specs.Rules.{type_to_write, type_reached, type_to_borrow, unless_closure as closure_refused};

use bc_bodies::{Draft, goes_only_mutable};
use bc_shapes::Shape;
use bc_syntax::{Base, Mutability, Place, Projection, Reference};
use bc_types::GoodTypes;

/// Returns the shape that projections lead to.
fn shape_behind<'a>(
    types: &'a GoodTypes,
    projections: &[Projection],
    references: &'a [Reference],
    base: &'a Base,
) -> Option<Shape<'a>>
    ensures { result ≡ option_map blanked (type_behind types.now projections.now references.now base.now) }
{
    match projections {
        [] => Some(Shape::behind(references, base)),
        [Projection::Deref, rest @ ..] => match references {
            [] => None,
            [_, more @ ..] => shape_behind(types, rest, more, base),
        },
        [Projection::Field(field), rest @ ..] => match references {
            [] => match base {
                Base::Int | Base::Closure(_) => None,
                Base::Struct(instance) => match types.declared_field(&instance.name, *field) {
                    Some(ty) => shape_behind(types, rest, ty.references.as_slice(), &ty.base),
                    None => None,
                },
            },
            [_, ..] => None,
        },
    }
}

/// Returns the shape of a place, or `None` if it has no type.
pub(crate) fn shape_of_place<'a>(draft: &'a Draft, place: &Place) -> Option<Shape<'a>>
    ensures { result ≡ option_map blanked (type_of_place draft.now place.now) }
{
    match draft.local(place.local) {
        Some(local) => shape_behind(
            draft.types(),
            place.projections.as_slice(),
            local.references.as_slice(),
            &local.base,
        ),
        None => None,
    }
}

/// Returns the shape of a place, if it may be written.
pub(crate) fn shape_to_write<'a>(draft: &'a Draft, place: &Place) -> Option<Shape<'a>>
    ensures { result ≡ option_map blanked (type_to_write draft.now place.now) }
{
    if goes_only_mutable(draft, place) {
        shape_of_place(draft, place)
    } else {
        None
    }
}

/// Returns the shape, unless it is a closure.
fn unless_closure(found: Option<Shape<'_>>) -> Option<Shape<'_>>
    ensures { result ≡ closure_refused found.entry }
{
    let shape = found?;
    if shape.closure().is_some() {
        None
    } else {
        Some(shape)
    }
}

/// Returns the shape of a place; for a mutable borrow, if it may be written.
fn shape_reached<'a>(draft: &'a Draft, mutability: Mutability, place: &Place) -> Option<Shape<'a>>
    ensures { result ≡ option_map blanked (type_reached draft.now mutability place.now) }
{
    match mutability {
        Mutability::Shared => shape_of_place(draft, place),
        Mutability::Mutable => shape_to_write(draft, place),
    }
}

/// Returns the shape of a place, if it may be borrowed.
pub(crate) fn shape_to_borrow<'a>(
    draft: &'a Draft,
    mutability: Mutability,
    place: &Place,
) -> Option<Shape<'a>>
    ensures { result ≡ option_map blanked (type_to_borrow draft.now mutability place.now) }
{
    unless_closure(shape_reached(draft, mutability, place))
}
