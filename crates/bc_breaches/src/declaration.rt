//! Which rule a bad declaration breaks, and where.
ghost use Rattle.std.specs.Prelude.{⊤, ◌≡◌, ◌+◌, ◌<◌, ◌^◌, None, length, reverse, take, slice_get, MatchOption};
ghost use Rattle.bc_types.specs.Declarations.{is_invariant as invariance, is_covariant as covariance, stands_well as standing, argument_positions, base_positions, positions_in, first_bad};
ghost use Rattle.bc_breaches.specs.Declarations.{misplaced, variance_breach as breach_of_variance, field_breach as breach_of_field, fields_breach as breach_of_fields, types_breach as breach_of_types, declaration_breach as breach_of_declaration, IsBadDeclaration};

use crate::lookup::{has_extern, is_declared, struct_among};
use bc_shapes::is_mutable;
use bc_syntax::{
    Base, Declaration, ExternDeclaration, Instance, Reference, Region, StructDeclaration, Ty,
    Variance,
};

/// Which rule a declaration breaks, and where. Types are numbered from 0: the fields of a struct, or the parameters of an extern function
/// and then its result.
///
/// `Name`: an earlier struct, or for an extern function an earlier extern function, has its name. `Mention`: the struct that a type mentions
/// is not declared earlier with that number of regions. `Variance`: this region, which is marked `+`, is in an invariant position of a field
/// (rustc-dev-guide, "Variance").
#[derive(Clone, Copy)]
pub enum DeclarationBreach {
    Name,
    Mention { ty: usize },
    Variance { field: usize, region: Region },
}

/// A bad declaration, by its number from 0, and the rule that it breaks.
#[derive(Clone, Copy)]
pub struct BadDeclaration {
    pub number: usize,
    pub breach: DeclarationBreach,
}

fn is_invariant(variance: Variance) -> bool
    ensures { result ≡ invariance variance }
{
    matches!(variance, Variance::Invariant)
}

/// Returns whether a region is one marked `+`.
fn is_covariant(variances: &[Variance], region: Region) -> bool
    ensures { result ≡ covariance variances.now region }
{
    match region {
        Region::Universal(number) => {
            if number == 0 {
                false
            } else {
                match variances.get(usize::from(number) - 1) {
                    Some(variance) => !is_invariant(*variance),
                    None => false,
                }
            }
        }
        Region::Variable(_) => false,
    }
}

/// Returns whether a region may be in a position, given its declaration's variances.
fn stands_well(variances: &[Variance], region: Region, invariant: bool) -> bool
    ensures { result ≡ standing variances.now (record { region = region; invariant = invariant }) }
{
    !(invariant && is_covariant(variances, region))
}

/// Returns the first argument of a struct with the variances `parameters` that may not be in its position.
fn misplaced_argument(
    variances: &[Variance],
    invariant: bool,
    parameters: &[Variance],
    regions: &[Region],
) -> Option<Region>
    ensures { result ≡ misplaced variances.now (argument_positions invariant parameters.now regions.now) }
{
    match parameters {
        [] => None,
        [parameter, more @ ..] => match regions {
            [] => None,
            [region, rest @ ..] => {
                if stands_well(variances, *region, invariant || is_invariant(*parameter)) {
                    misplaced_argument(variances, invariant, more, rest)
                } else {
                    Some(*region)
                }
            }
        },
    }
}

/// Returns the first region of an instance of a struct that may not be in its position.
fn misplaced_in_struct(
    earlier: &[Declaration],
    variances: &[Variance],
    invariant: bool,
    instance: &Instance,
) -> Option<Region>
    ensures { result ≡ misplaced variances.now (base_positions (reverse earlier.now) invariant (Base.Struct instance.now)) }
{
    match struct_among(earlier, &instance.name) {
        Some(declaration) => misplaced_argument(
            variances,
            invariant,
            declaration.variances.as_slice(),
            instance.regions.as_slice(),
        ),
        None => None,
    }
}

fn misplaced_in_base(
    earlier: &[Declaration],
    variances: &[Variance],
    invariant: bool,
    base: &Base,
) -> Option<Region>
    ensures { result ≡ misplaced variances.now (base_positions (reverse earlier.now) invariant base.now) }
{
    match base {
        Base::Int => None,
        Base::Struct(instance) => misplaced_in_struct(earlier, variances, invariant, instance),
        Base::Closure(_) => None,
    }
}

/// Returns the first region in a type that may not be in its position. `invariant` says whether the type is in an invariant position.
fn misplaced_region(
    earlier: &[Declaration],
    variances: &[Variance],
    invariant: bool,
    references: &[Reference],
    base: &Base,
) -> Option<Region>
    ensures { result ≡ misplaced variances.now (positions_in (reverse earlier.now) invariant references.now base.now) }
{
    match references {
        [] => misplaced_in_base(earlier, variances, invariant, base),
        [reference, more @ ..] => {
            if stands_well(variances, reference.region, invariant) {
                let behind = invariant || is_mutable(reference.mutability);
                misplaced_region(earlier, variances, behind, more, base)
            } else {
                Some(reference.region)
            }
        }
    }
}

fn variance_breach(field: usize, region: Option<Region>) -> Option<DeclarationBreach>
    ensures { result ≡ breach_of_variance field region }
{
    match region {
        Some(region) => Some(DeclarationBreach::Variance { field, region }),
        None => None,
    }
}

/// Returns the breach of a field, given its number.
fn field_breach(
    earlier: &[Declaration],
    variances: &[Variance],
    field: usize,
    ty: &Ty,
) -> Option<DeclarationBreach>
    ensures { result ≡ breach_of_field (reverse earlier.now) variances.now field ty.now }
{
    if is_declared(earlier, &ty.base) {
        let references = ty.references.as_slice();
        variance_breach(
            field,
            misplaced_region(earlier, variances, false, references, &ty.base),
        )
    } else {
        Some(DeclarationBreach::Mention { ty: field })
    }
}

/// Returns the first breach of fields, the first of which has this number.
fn fields_breach(
    earlier: &[Declaration],
    variances: &[Variance],
    field: usize,
    types: &[Ty],
) -> Option<DeclarationBreach>
    requires { field + length types.now < 2 ^ 64 }
    ensures { result ≡ breach_of_fields (reverse earlier.now) variances.now field types.now }
{
    match types {
        [] => None,
        [ty, more @ ..] => match field_breach(earlier, variances, field, ty) {
            Some(breach) => Some(breach),
            None => fields_breach(earlier, variances, field + 1, more),
        },
    }
}

/// Returns the first of some types, the first of which has this number, that mentions a struct which is not declared.
fn types_breach(earlier: &[Declaration], number: usize, types: &[Ty]) -> Option<DeclarationBreach>
    requires { number + length types.now < 2 ^ 64 }
    ensures { result ≡ breach_of_types (reverse earlier.now) number types.now }
{
    match types {
        [] => None,
        [ty, more @ ..] => {
            if is_declared(earlier, &ty.base) {
                types_breach(earlier, number + 1, more)
            } else {
                Some(DeclarationBreach::Mention { ty: number })
            }
        }
    }
}

fn struct_breach(
    earlier: &[Declaration],
    declaration: &StructDeclaration,
) -> Option<DeclarationBreach>
    ensures { result ≡ breach_of_declaration (reverse earlier.now) (Declaration.Struct declaration.now) }
{
    match struct_among(earlier, &declaration.name) {
        Some(_) => Some(DeclarationBreach::Name),
        None => {
            let variances = declaration.variances.as_slice();
            fields_breach(earlier, variances, 0, declaration.fields.as_slice())
        }
    }
}

fn extern_breach(
    earlier: &[Declaration],
    declaration: &ExternDeclaration,
) -> Option<DeclarationBreach>
    ensures { result ≡ breach_of_declaration (reverse earlier.now) (Declaration.Extern declaration.now) }
{
    if has_extern(earlier, &declaration.name) {
        return Some(DeclarationBreach::Name);
    }
    let parameters = declaration.signature.parameters.as_slice();
    match types_breach(earlier, 0, parameters) {
        Some(breach) => Some(breach),
        None => {
            if is_declared(earlier, &declaration.signature.result.base) {
                None
            } else {
                let ty = parameters.len();
                Some(DeclarationBreach::Mention { ty })
            }
        }
    }
}

/// Returns the breach of a declaration after the earlier ones.
fn declaration_breach(
    earlier: &[Declaration],
    declaration: &Declaration,
) -> Option<DeclarationBreach>
    ensures { result ≡ breach_of_declaration (reverse earlier.now) declaration.now }
{
    match declaration {
        Declaration::Struct(declaration) => struct_breach(earlier, declaration),
        Declaration::Extern(declaration) => extern_breach(earlier, declaration),
    }
}

/// Returns the first bad declaration, by its number, with the first rule that it breaks, in the order of `DeclarationBreach`, type by type.
/// Returns `None` exactly if no declaration is bad. (rustc-dev-guide, "Variance".)
pub fn bad_declaration(declarations: &[Declaration]) -> Option<BadDeclaration>
    ensures number { MatchOption result (first_bad declarations.now ≡ None) (λ bad. first_bad declarations.now ≡ Some bad.number) }
    ensures breach { MatchOption result ⊤ (λ bad. IsBadDeclaration declarations.now bad) }
{
    for (number, declaration) in declarations.iter().enumerate() {
        match declaration_breach(&declarations[..number], declaration) {
            Some(breach) => return Some(BadDeclaration { number, breach }),
            None => {}
        }
    }
    None
}
