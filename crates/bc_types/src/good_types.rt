//! Declarations of which none is bad.
ghost use Rattle.std.specs.Prelude.{◌≡◌, ◌++◌, ℕ, reverse, IfOk, OnOk};
ghost use Rattle.std.specs.List.{list_all};
ghost use Rattle.std.specs.Option.{option_copied};
ghost use Rattle.bc_types.specs.Declarations.{has_declared_base as declared_base, first_bad, struct_of, extern_of};
ghost use Rattle.bc_types.specs.Drops.{holds_drop as holding};
ghost use Rattle.bc_types.specs.Fields.{declared_field as field_there, field_type};
ghost use Rattle.bc_types.specs.WellFormed.{replaced_well_formed, well_formed_pairs};

use crate::good::{have_declared_bases, is_good};
use crate::subtype::Constraint;
use crate::table::Table;
use crate::well_formed::push_replaced_pairs;
use bc_shapes::replace_ty;
use bc_syntax::{
    Declaration, ExternDeclaration, Instance, ItemName, Region, StructDeclaration, Ty, Types,
};
use std::alloc::{AllocError, Global};
use std::marker::Model;
use thiserror::Error;

/// Why declarations cannot be used: the first bad one, by its number from 0; or out of memory.
#[derive(Clone, Copy, Debug, PartialEq, Eq, Error)]
pub enum DeclFault {
    #[error("declaration {index} is bad")]
    BadDecl { index: usize },
    #[error("out of memory")]
    NoMemory,
}

impl From<AllocError> for DeclFault {
    ghost use Rattle.bc_types.specs.declared.good_types.DeclFault.TheVariants.{NoMemory};

    ghost from_gives = { λ _ fault. fault ≡ NoMemory };

    fn from(_refused: AllocError) -> DeclFault {
        DeclFault::NoMemory
    }
}

/// Returns the type of a field as its struct declares it.
fn declared_field<'a>(table: &'a Table, name: &ItemName, field: u8) -> Option<&'a Ty>
    ensures { option_copied result ≡ field_there table.now name.now field }
{
    match table.struct_of(name) {
        Some(declaration) => declaration.fields.as_slice().get(usize::from(field)),
        None => None,
    }
}

/// Returns a table of declarations. Returns `BadDecl` at the first bad one.
fn fill(alloc: Global, declarations: &[Declaration]) -> Result<Table, DeclFault>
    ensures ok { IfOk result (λ table. table ≡ declarations.now) }
    ensures good { OnOk result (first_bad declarations.now ≡ None) }
    ensures bad { (number : ℕ) → result ≡ Err (DeclFault.BadDecl number) → first_bad declarations.now ≡ Some number }
{
    let mut table = Table::new(alloc);
    for (index, declaration) in declarations.iter().enumerate() {
        if !is_good(&table, declaration) {
            return Err(DeclFault::BadDecl { index });
        }
        table = table.with(alloc, declaration)?;
    }
    Ok(table)
}

/// Declarations of which none is bad. No two structs share a name, and no two extern functions do. Each struct that a declaration mentions
/// comes before it and has its number of regions. No region marked `+` is in an invariant position of a field (rustc-dev-guide,
/// "Variance"). It borrows nothing.
pub struct GoodTypes {
    table: Table,
}

// Written by hand, so that it is proved once: the crates above only call it.
impl Drop for GoodTypes {
    fn drop(self) {
        let Self { table: _ } = self;
    }
}

impl Model for GoodTypes {
    ghost use Rattle.std.specs.Prelude.{◌≡◌, List, None};
    ghost use Rattle.bc_syntax.specs.declared.syntax.Declaration.{Declaration};
    ghost use Rattle.bc_types.specs.Declarations.{first_bad};

    ghost Value = { List Declaration };

    ghost view = { λ t. t.table };

    ghost invariant = { λ t. first_bad t.table ≡ None };
}

/// A value with declarations, which can check that none of them is bad.
pub trait CheckTypes {
    ghost use Rattle.std.specs.Prelude.{List};
    ghost use Rattle.bc_syntax.specs.declared.syntax.Declaration.{Declaration};

    // The declarations of a value.
    ghost declarations: { Self → List Declaration };

    /// Returns the declarations as `GoodTypes` if none is bad. Returns `BadDecl` with the number of the first bad one, counted from 0, if
    /// there is one, and `NoMemory` only if out of memory.
    fn check(&self, alloc: Global) -> Result<GoodTypes, DeclFault>
        ensures ok { IfOk result (λ good. good ≡ declarations self.now) }
        ensures good { OnOk result (first_bad (declarations self.now) ≡ None) }
        ensures bad { (number : ℕ) → result ≡ Err (DeclFault.BadDecl number) → first_bad (declarations self.now) ≡ Some number };
}

impl CheckTypes for Types {
    ghost declarations = { λ types. types };

    fn check(&self, alloc: Global) -> Result<GoodTypes, DeclFault> {
        let table = fill(alloc, self.declarations())?;
        Ok(GoodTypes { table })
    }
}

impl GoodTypes {
    /// Returns the struct with this name, or `None` if there is none.
    pub fn struct_of(&self, name: &ItemName) -> Option<&StructDeclaration>
        ensures found { option_copied result ≡ struct_of self.now name.now }
        ensures good { first_bad self.now ≡ None }
    {
        self.table.struct_of(name)
    }

    /// Returns the extern function with this name, or `None` if there is none.
    pub fn extern_of(&self, name: &ItemName) -> Option<&ExternDeclaration>
        ensures found { option_copied result ≡ extern_of self.now name.now }
        ensures good { first_bad self.now ≡ None }
    {
        self.table.extern_of(name)
    }

    /// Returns whether a type needs drop, closures aside: it is a struct that is marked `drop`, or has a field whose type needs drop.
    pub fn holds_drop(&self, ty: &Ty) -> bool
        ensures { result ≡ holding self.now ty.now }
    {
        self.table.holds_drop(ty)
    }

    /// Returns the type of a field as its struct declares it, or `None` if there is no such struct or field.
    pub fn declared_field(&self, name: &ItemName, field: u8) -> Option<&Ty>
        ensures { option_copied result ≡ field_there self.now name.now field }
    {
        declared_field(&self.table, name, field)
    }

    /// Returns whether each struct that types mention is declared, with its number of regions.
    pub fn declares(&self, types: &[Ty]) -> bool
        ensures { result ≡ list_all (declared_base (reverse self.now)) types.now }
    {
        have_declared_bases(&self.table, types)
    }

    /// Returns the type of a field of a struct, with the struct's regions replaced by the instance's, or `None` if there is no such struct
    /// or field.
    pub fn field_type(
        &self,
        alloc: Global,
        instance: &Instance,
        field: u8,
    ) -> Result<Option<Ty>, AllocError>
        ensures { IfOk result (λ ty. ty ≡ field_type self.now instance.now field) }
    {
        match declared_field(&self.table, &instance.name, field) {
            Some(ty) => Ok(Some(replace_ty(alloc, instance.regions.as_slice(), ty)?)),
            None => Ok(None),
        }
    }

    /// Appends what a well-formed type demands. Each region inside the pointee of a reference outlives the region of the reference. A
    /// struct demands what the types of its fields demand, with its regions replaced by its arguments. The captures of a closure are not
    /// looked at. (Rust Reference, "Trait and lifetime bounds"; RFC 1214.)
    pub fn push_well_formed(
        &self,
        constraints: &mut Vec<Constraint>,
        ty: &Ty,
    ) -> Result<(), AllocError>
        ensures { OnOk result (constraints.new.items ≡ constraints.old.items ++ well_formed_pairs self.now ty.now) }
    {
        self.table.push_well_formed(constraints, ty)
    }

    /// Appends what well-formed types of a declaration or of a header demand, in order, with the declared regions replaced by arguments.
    /// (RFC 1214.)
    pub fn push_replaced_well_formed(
        &self,
        alloc: Global,
        constraints: &mut Vec<Constraint>,
        arguments: &[Region],
        types: &[Ty],
    ) -> Result<(), AllocError>
        ensures { OnOk result (constraints.new.items
            ≡ constraints.old.items ++ replaced_well_formed self.now arguments.now types.now) }
    {
        let pairs = self.table.pairs_of_types(alloc, types)?;
        push_replaced_pairs(constraints, arguments, &pairs)
    }
}
