//! Structs and extern functions by name, among the declarations before one.
ghost use Rattle.std.specs.Prelude.{◌≡◌, is_some, reverse};
ghost use Rattle.std.specs.List.{find};
ghost use Rattle.std.specs.Option.{option_copied};
ghost use Rattle.bc_shapes.specs.Shapes.{same_name};
ghost use Rattle.bc_types.specs.Declarations.{struct_among as among, extern_among as extern_there, is_declared as declared};
ghost use Rattle.bc_breaches.specs.Lookups.{is_struct as struct_test, is_extern as extern_test};

use bc_syntax::{Base, Declaration, Instance, ItemName, StructDeclaration};
use bc_types::takes_regions;

fn is_same_name(first: &ItemName, second: &ItemName) -> bool
    ensures { result ≡ same_name first.now second.now }
{
    first.bytes.as_slice() == second.bytes.as_slice()
}

/// Returns whether a declaration is a struct of a name.
fn is_struct(name: &ItemName, declaration: &Declaration) -> bool
    ensures { result ≡ struct_test name.now declaration.now }
{
    match declaration {
        Declaration::Struct(declaration) => is_same_name(name, &declaration.name),
        Declaration::Extern(_) => false,
    }
}

/// Returns whether a declaration is an extern function of a name.
fn is_extern(name: &ItemName, declaration: &Declaration) -> bool
    ensures { result ≡ extern_test name.now declaration.now }
{
    match declaration {
        Declaration::Struct(_) => false,
        Declaration::Extern(declaration) => is_same_name(name, &declaration.name),
    }
}

/// Returns the last of some declarations that is a struct of a name.
fn last_struct<'a>(earlier: &'a [Declaration], name: &ItemName) -> Option<&'a Declaration>
    ensures { option_copied result ≡ find (struct_test name.now) (reverse earlier.now) }
{
    earlier
        .iter()
        .rev()
        .find(|declaration| is_struct(name, declaration))
}

/// Returns the struct of a name, the last one if several have it.
pub(crate) fn struct_among<'a>(
    earlier: &'a [Declaration],
    name: &ItemName,
) -> Option<&'a StructDeclaration>
    ensures { option_copied result ≡ among (reverse earlier.now) name.now }
{
    match last_struct(earlier, name) {
        Some(Declaration::Struct(declaration)) => Some(declaration),
        Some(Declaration::Extern(_)) => None,
        None => None,
    }
}

/// Returns whether an extern function has a name.
pub(crate) fn has_extern(earlier: &[Declaration], name: &ItemName) -> bool
    ensures { result ≡ is_some (extern_there (reverse earlier.now) name.now) }
{
    earlier
        .iter()
        .rev()
        .any(|declaration| is_extern(name, declaration))
}

fn is_declared_struct(earlier: &[Declaration], instance: &Instance) -> bool
    ensures { result ≡ declared (reverse earlier.now) (Base.Struct instance.now) }
{
    match struct_among(earlier, &instance.name) {
        Some(declaration) => takes_regions(instance, declaration),
        None => false,
    }
}

/// Returns whether the struct that a base mentions is declared, with its number of regions.
pub(crate) fn is_declared(earlier: &[Declaration], base: &Base) -> bool
    ensures { result ≡ declared (reverse earlier.now) base.now }
{
    match base {
        Base::Int => true,
        Base::Struct(instance) => is_declared_struct(earlier, instance),
        Base::Closure(_) => true,
    }
}
