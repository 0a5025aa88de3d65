//! Which declarations are good after others.
ghost use Rattle.std.specs.Prelude.{◌≡◌, reverse};
ghost use Rattle.std.specs.List.{list_all};
ghost use Rattle.bc_types.specs.Declarations.{is_declared as declared, is_invariant as invariance, is_covariant as covariance, stands_well as standing, argument_positions, base_positions, positions_in, is_good_field as good_field, has_declared_base as declared_base, is_good as goodness};

use crate::table::Table;
use bc_shapes::is_mutable;
use bc_syntax::{
    Base, Declaration, ExternDeclaration, Reference, Region, StructDeclaration, Ty, Variance,
};

/// Returns whether the struct that a base mentions is declared, with its number of regions.
pub(crate) fn is_declared(table: &Table, base: &Base) -> bool
    ensures { result ≡ declared (reverse table.now) base.now }
{
    match base {
        Base::Int => true,
        Base::Struct(instance) => table.declares(instance),
        Base::Closure(_) => true,
    }
}

pub(crate) fn is_invariant(variance: Variance) -> bool
    ensures { result ≡ invariance variance }
{
    matches!(variance, Variance::Invariant)
}

/// Returns whether a region is one marked `+`.
fn is_covariant(variances: &[Variance], region: Region) -> bool
    ensures { result ≡ covariance variances.now region }
{
    match region {
        Region::Universal(number) => {
            if number == 0 {
                false
            } else {
                match variances.get(usize::from(number) - 1) {
                    Some(variance) => !is_invariant(*variance),
                    None => false,
                }
            }
        }
        Region::Variable(_) => false,
    }
}

/// Returns whether a region may be in a position, given its declaration's variances.
fn stands_well(variances: &[Variance], region: Region, invariant: bool) -> bool
    ensures { result ≡ standing variances.now (record { region = region; invariant = invariant }) }
{
    !(invariant && is_covariant(variances, region))
}

/// Returns whether each argument of a struct with the variances `parameters` may be in its position.
fn arguments_stand_well(
    variances: &[Variance],
    invariant: bool,
    parameters: &[Variance],
    regions: &[Region],
) -> bool
    ensures { result ≡ list_all (standing variances.now) (argument_positions invariant parameters.now regions.now) }
{
    match parameters {
        [] => true,
        [parameter, more @ ..] => match regions {
            [] => true,
            [region, rest @ ..] => {
                stands_well(variances, *region, invariant || is_invariant(*parameter))
                    && arguments_stand_well(variances, invariant, more, rest)
            }
        },
    }
}

fn base_stands_well(table: &Table, variances: &[Variance], invariant: bool, base: &Base) -> bool
    ensures { result ≡ list_all (standing variances.now) (base_positions (reverse table.now) invariant base.now) }
{
    match base {
        Base::Int => true,
        Base::Struct(instance) => match table.struct_of(&instance.name) {
            Some(declaration) => arguments_stand_well(
                variances,
                invariant,
                declaration.variances.as_slice(),
                instance.regions.as_slice(),
            ),
            None => true,
        },
        Base::Closure(_) => true,
    }
}

/// Returns whether each region in a type may be in its position. `invariant` says whether the type is in an invariant position.
fn regions_stand_well(
    table: &Table,
    variances: &[Variance],
    invariant: bool,
    references: &[Reference],
    base: &Base,
) -> bool
    ensures { result ≡ list_all (standing variances.now) (positions_in (reverse table.now) invariant references.now base.now) }
{
    match references {
        [] => base_stands_well(table, variances, invariant, base),
        [reference, more @ ..] => {
            let behind = invariant || is_mutable(reference.mutability);
            stands_well(variances, reference.region, invariant)
                && regions_stand_well(table, variances, behind, more, base)
        }
    }
}

fn is_good_field(table: &Table, variances: &[Variance], ty: &Ty) -> bool
    ensures { result ≡ good_field (reverse table.now) variances.now ty.now }
{
    is_declared(table, &ty.base)
        && regions_stand_well(table, variances, false, ty.references.as_slice(), &ty.base)
}

fn are_good_fields(table: &Table, variances: &[Variance], fields: &[Ty]) -> bool
    ensures { result ≡ list_all (good_field (reverse table.now) variances.now) fields.now }
{
    fields
        .iter()
        .all(|field| is_good_field(table, variances, field))
}

fn has_declared_base(table: &Table, ty: &Ty) -> bool
    ensures { result ≡ declared_base (reverse table.now) ty.now }
{
    is_declared(table, &ty.base)
}

/// Returns whether each struct that types mention is declared, with its number of regions.
pub(crate) fn have_declared_bases(table: &Table, types: &[Ty]) -> bool
    ensures { result ≡ list_all (declared_base (reverse table.now)) types.now }
{
    types.iter().all(|ty| has_declared_base(table, ty))
}

fn is_good_struct(table: &Table, declaration: &StructDeclaration) -> bool
    ensures { result ≡ goodness (reverse table.now) (Declaration.Struct declaration.now) }
{
    table.struct_of(&declaration.name).is_none()
        && are_good_fields(
            table,
            declaration.variances.as_slice(),
            declaration.fields.as_slice(),
        )
}

fn is_good_extern(table: &Table, declaration: &ExternDeclaration) -> bool
    ensures { result ≡ goodness (reverse table.now) (Declaration.Extern declaration.now) }
{
    table.extern_of(&declaration.name).is_none()
        && have_declared_bases(table, declaration.signature.parameters.as_slice())
        && has_declared_base(table, &declaration.signature.result)
}

/// Returns whether a declaration is good after those of a table.
pub(crate) fn is_good(table: &Table, declaration: &Declaration) -> bool
    ensures { result ≡ goodness (reverse table.now) declaration.now }
{
    match declaration {
        Declaration::Struct(declaration) => is_good_struct(table, declaration),
        Declaration::Extern(declaration) => is_good_extern(table, declaration),
    }
}
