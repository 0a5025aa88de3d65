//! The types of places.
ghost use Rattle.std.specs.Prelude.{◌≡◌, ◌++◌, ⊤, true, List, [], ◌∷◌, Some, IfOk, OnOk, MatchOption};
ghost use Rattle.std.specs.List.{list_all};
ghost use Rattle.bc_syntax.specs.declared.syntax.Declaration.{Declaration};
ghost use Rattle.bc_bodies.specs.Places.{are_mutable, has_no_field, is_deref};
ghost use Rattle.bc_bodies.specs.PlaceTypes.{field_of as field_there, type_behind as behind, type_of_place as place_there, references_behind as dereferenced_behind, references_of_place as dereferenced_there, mutable_behind, mutable_on_way};

use crate::mir::Draft;
use bc_shapes::{TyRef, is_mutable};
use bc_syntax::{Base, Place, Projection, Reference, ShortSequence, Ty};
use bc_types::GoodTypes;
use std::alloc::{AllocError, Global};

/// Returns the type of a field of a struct.
fn field_of(
    alloc: Global,
    types: &GoodTypes,
    base: &Base,
    field: u8,
) -> Result<Option<Ty>, AllocError>
    ensures { IfOk result (λ ty. ty ≡ field_there types.now base.now field) }
{
    match base {
        Base::Int | Base::Closure(_) => Ok(None),
        Base::Struct(instance) => types.field_type(alloc, instance, field),
    }
}

/// Appends references in order.
pub fn push_references(
    references: &mut ShortSequence<Reference, 7>,
    more: &[Reference],
) -> Result<(), AllocError>
    ensures { OnOk result (references.new ≡ references.old ++ more.now) }
{
    for reference in more {
        references.push(*reference)?;
    }
    Ok(())
}

fn copy_base(base: &Base) -> Result<Base, AllocError>
    ensures { IfOk result (λ copy. copy ≡ base.now) }
{
    base.clone()
}

/// Returns the type with these references and this base.
fn whole_type(alloc: Global, references: &[Reference], base: &Base) -> Result<Ty, AllocError>
    ensures { IfOk result (λ ty. ty ≡ record { references = references.now; base = base.now }) }
{
    let mut copy = ShortSequence::new(alloc);
    push_references(&mut copy, references)?;
    Ok(Ty {
        references: copy,
        base: copy_base(base)?,
    })
}

/// Returns the type that a field, and then projections, lead to.
#[cycle(type_behind)]
fn type_behind_field(
    alloc: Global,
    types: &GoodTypes,
    projections: &[Projection],
    base: &Base,
    field: u8,
) -> Result<Option<Ty>, AllocError>
    ensures { IfOk result (λ ty. ty ≡ behind types.now (Projection.Field field ∷ projections.now) [] base.now) }
{
    match field_of(alloc, types, base, field)? {
        Some(ty) => type_behind(
            alloc,
            types,
            projections,
            ty.references.as_slice(),
            &ty.base,
        ),
        None => Ok(None),
    }
}

/// Returns the type that projections lead to.
#[cycle(type_behind)]
fn type_behind(
    alloc: Global,
    types: &GoodTypes,
    projections: &[Projection],
    references: &[Reference],
    base: &Base,
) -> Result<Option<Ty>, AllocError>
    ensures { IfOk result (λ ty. ty ≡ behind types.now projections.now references.now base.now) }
{
    match projections {
        [] => Ok(Some(whole_type(alloc, references, base)?)),
        [Projection::Deref, rest @ ..] => match references {
            [] => Ok(None),
            [_, more @ ..] => type_behind(alloc, types, rest, more, base),
        },
        [Projection::Field(field), rest @ ..] => match references {
            [] => type_behind_field(alloc, types, rest, base, *field),
            [_, ..] => Ok(None),
        },
    }
}

/// Returns the type of a place, or `None` if it has none. It is the type of the local, followed through each projection. (rustc-dev-guide,
/// "The MIR".)
pub fn type_of_place(alloc: Global, draft: &Draft, place: &Place) -> Result<Option<Ty>, AllocError>
    ensures { IfOk result (λ ty. ty ≡ place_there draft.now place.now) }
{
    match draft.local(place.local) {
        Some(local) => type_behind(
            alloc,
            draft.types(),
            place.projections.as_slice(),
            local.references.as_slice(),
            &local.base,
        ),
        None => Ok(None),
    }
}

/// Returns the type that projections without fields lead to.
fn lent_behind<'a>(
    projections: &[Projection],
    references: &'a [Reference],
    base: &'a Base,
) -> Option<TyRef<'a>>
    ensures value { MatchOption result ⊤ (λ ty. (types : List Declaration) → behind types projections.now references.now base.now ≡ Some ty) }
    ensures found { (types : List Declaration) → list_all is_deref projections.now ≡ true → result ≡ behind types projections.now references.now base.now }
{
    match projections {
        [] => Some(TyRef::behind(references, base)),
        [Projection::Deref, rest @ ..] => match references {
            [] => None,
            [_, more @ ..] => lent_behind(rest, more, base),
        },
        [Projection::Field(_), ..] => None,
    }
}

/// Returns the type of a place without fields, borrowed from the type of its local. Returns `None` if the place has no type or has a field.
/// (rustc-dev-guide, "The MIR".)
pub fn lent_type_of_place<'a>(draft: &'a Draft, place: &Place) -> Option<TyRef<'a>>
    ensures value { MatchOption result ⊤ (λ ty. place_there draft.now place.now ≡ Some ty) }
    ensures found { has_no_field place.now ≡ true → result ≡ place_there draft.now place.now }
{
    match draft.local(place.local) {
        Some(local) => lent_behind(
            place.projections.as_slice(),
            local.references.as_slice(),
            &local.base,
        ),
        None => None,
    }
}

/// Appends the references that projections dereference.
fn push_references_behind(
    alloc: Global,
    out: &mut Vec<Reference>,
    types: &GoodTypes,
    projections: &[Projection],
    references: &[Reference],
    base: &Base,
) -> Result<(), AllocError>
    ensures { OnOk result (out.new.items ≡ out.old.items ++ dereferenced_behind types.now projections.now references.now base.now) }
{
    match projections {
        [] => Ok(()),
        [Projection::Deref, rest @ ..] => match references {
            [] => Ok(()),
            [reference, more @ ..] => {
                out.push(*reference)?;
                push_references_behind(alloc, out, types, rest, more, base)
            }
        },
        [Projection::Field(field), rest @ ..] => match references {
            [] => match field_of(alloc, types, base, *field)? {
                Some(ty) => push_references_behind(
                    alloc,
                    out,
                    types,
                    rest,
                    ty.references.as_slice(),
                    &ty.base,
                ),
                None => Ok(()),
            },
            [_, ..] => Ok(()),
        },
    }
}

/// Appends the references that a place dereferences, in order, and none if its local is not declared. (RFC 2094, "Reborrow constraints".)
pub fn push_references_of_place(
    alloc: Global,
    out: &mut Vec<Reference>,
    draft: &Draft,
    place: &Place,
) -> Result<(), AllocError>
    ensures { OnOk result (out.new.items ≡ out.old.items ++ dereferenced_there draft.now place.now) }
{
    match draft.local(place.local) {
        Some(local) => push_references_behind(
            alloc,
            out,
            draft.types(),
            place.projections.as_slice(),
            local.references.as_slice(),
            &local.base,
        ),
        None => Ok(()),
    }
}

/// Returns whether projections from a type dereference only mutable references. Regions do not matter for this, so a field has its declared
/// type. (RFC 2094, "Reborrow constraints".)
pub fn passes_only_mutable(
    types: &GoodTypes,
    projections: &[Projection],
    references: &[Reference],
    base: &Base,
) -> bool
    ensures { result ≡ mutable_behind types.now projections.now references.now base.now }
{
    match projections {
        [] => true,
        [Projection::Deref, rest @ ..] => match references {
            [] => true,
            [reference, more @ ..] => {
                is_mutable(reference.mutability) && passes_only_mutable(types, rest, more, base)
            }
        },
        [Projection::Field(field), rest @ ..] => match references {
            [] => match base {
                Base::Int | Base::Closure(_) => true,
                Base::Struct(instance) => match types.declared_field(&instance.name, *field) {
                    Some(ty) => {
                        passes_only_mutable(types, rest, ty.references.as_slice(), &ty.base)
                    }
                    None => true,
                },
            },
            [_, ..] => true,
        },
    }
}

/// Returns whether a place dereferences only mutable references. (RFC 2094, "Reborrow constraints".)
pub fn goes_only_mutable(draft: &Draft, place: &Place) -> bool
    ensures { result ≡ are_mutable (dereferenced_there draft.now place.now) }
{
    is_mutable_on_way(draft, place)
}

fn is_mutable_on_way(draft: &Draft, place: &Place) -> bool
    ensures { result ≡ mutable_on_way draft.now place.now }
{
    match draft.local(place.local) {
        Some(local) => passes_only_mutable(
            draft.types(),
            place.projections.as_slice(),
            local.references.as_slice(),
            &local.base,
        ),
        None => true,
    }
}
