//! `Types` of declarations that a text can spell.
ghost use Rattle.std.specs.Prelude.{◌≡◌, ◌≤◌, ◌↔◌, [], IsTrue, IfSome, IsSome, length};
ghost use Rattle.std.specs.List.{list_all, filter};
ghost use Rattle.bc_syntax.specs.Fits as spec;
ghost use Rattle.bc_syntax.specs.Fits.{TypesFit};

use crate::bodies::{Limits, are_new, item_fits, signature_fits, tys_fit};
use bc_syntax::{Declaration, ExternDeclaration, Sequence, StructDeclaration, Types, is_struct};

fn struct_fits(declaration: &StructDeclaration) -> bool
    ensures { result ≡ spec.struct_fits declaration.now }
{
    let regions = declaration.regions.as_slice();
    if regions.len() > 8 {
        return false;
    }
    let limits = Limits {
        variables: false,
        universals: regions.len() + 1,
        locals: 0,
    };
    let fields = declaration.fields.as_slice();
    item_fits(&declaration.name)
        && are_new(regions)
        && declaration.variances.len() == regions.len()
        && tys_fit(limits, fields)
        && fields.len() <= 16
}

fn extern_fits(declaration: &ExternDeclaration) -> bool
    ensures { result ≡ spec.extern_fits declaration.now }
{
    item_fits(&declaration.name) && signature_fits(&declaration.signature, 8)
}

fn declaration_fits(declaration: &Declaration) -> bool
    ensures { result ≡ spec.declaration_fits declaration.now }
{
    match declaration {
        Declaration::Struct(declaration) => struct_fits(declaration),
        Declaration::Extern(declaration) => extern_fits(declaration),
    }
}

fn each_fits(declarations: &[Declaration]) -> bool
    ensures { result ≡ list_all spec.declaration_fits declarations.now }
{
    declarations
        .iter()
        .all(|declaration| declaration_fits(declaration))
}

fn struct_count(declarations: &[Declaration]) -> usize
    ensures count { result ≡ length (filter spec.is_struct declarations.now) }
    ensures within { result ≤ length declarations.now }
{
    let mut count = 0;
    for declaration in declarations {
        if is_struct(declaration) {
            count += 1;
        }
    }
    count
}

/// Returns whether a text can spell these declarations.
fn fit(declarations: &[Declaration]) -> bool
    ensures { IsTrue result ↔ TypesFit declarations.now }
{
    let structs = struct_count(declarations);
    structs <= 64 && declarations.len() - structs <= 64 && each_fits(declarations)
}

/// Makes `Types` of declarations. Returns `None` exactly if no text spells them: a number or a count is past its limit, a name is not well
/// formed, a region is not declared, declared twice or declared as `'static`, a struct has not one variance for each region, or a type has
/// a region variable or a closure.
pub fn types_of(declarations: Sequence<Declaration>) -> Option<Types>
    ensures declarations { IfSome result (λ types. types ≡ declarations) }
    ensures fit { IfSome result (λ _. TypesFit declarations) }
    ensures some { TypesFit declarations → IsSome result }
{
    if fit(declarations.as_slice()) {
        Some(Types::of_fitting(declarations))
    } else {
        None
    }
}
