//! Declarations that are looked up by name.
ghost use Rattle.std.specs.Prelude.{◌≡◌, ◌++◌, ◌∷◌, ◌||◌, [], false, map, unwrap_or, reverse, length, IfOk, OnOk};
ghost use Rattle.std.specs.List.{flat_map, list_any};
ghost use Rattle.std.specs.Option.{option_copied, option_map, option_map_or};
ghost use Rattle.bc_types.specs.Declarations.{struct_of, extern_of, takes_regions as takes};
ghost use Rattle.std.specs.Str.{bytes_eq};
ghost use Rattle.indexmap.specs.IndexMap.{get_by};
ghost use Rattle.bc_types.specs.Known.{known_behind as behind, known_struct, known_extern, Adds, struct_at as struct_there, extern_at as extern_there};
ghost use Rattle.bc_types.specs.Drops.{holds_drop as holding, struct_holds_drop as struct_holding};
ghost use Rattle.bc_types.specs.WellFormed.{base_pairs, field_pairs as pairs_of_fields, replaced_pair, struct_pairs as pairs_of_struct, well_formed_pairs};

use crate::region_pairs::RegionPairs;
use crate::subtype::Constraint;
use crate::well_formed::push_reference_pairs;
use bc_shapes::copy_name;
use bc_syntax::{
    Base, Declaration, ExternDeclaration, Instance, ItemName, Outlives, RegionName, Sequence,
    Signature, StructDeclaration, Ty,
};
use indexmap::IndexMap;
use std::alloc::{AllocError, Global};
use std::marker::Model;

/// What is stored of a struct: its position among declarations, whether it needs drop, and what its fields' types demand of its own
/// regions. That is at most 81 bits: a struct has at most 8 regions, and `'static` is one more.
#[derive(Drop)]
pub(crate) struct KnownStruct {
    pub(crate) position: usize,
    pub(crate) holds_drop: bool,
    pub(crate) pairs: RegionPairs,
}

/// Declarations that are looked up by name. If several of one kind have a name, the last is found.
#[derive(Drop)]
pub(crate) struct Table {
    declarations: Sequence<Declaration>,
    structs: IndexMap<Vec<u8>, KnownStruct>,
    externs: IndexMap<Vec<u8>, usize>,
}

impl Model for Table {
    ghost use Rattle.std.specs.Prelude.{List};
    ghost use Rattle.bc_syntax.specs.declared.syntax.Declaration.{Declaration};
    ghost use Rattle.std.specs.Str.{bytes_eq};
    ghost use Rattle.indexmap.specs.IndexMap.{get_by};
    ghost use Rattle.bc_types.specs.Known.{AreKnown};

    ghost Value = { List Declaration };

    ghost view = { λ t. t.declarations };

    ghost invariant = { λ t. AreKnown (λ k. k.items) t.declarations t.structs t.externs };
}

fn copy_struct(declaration: &StructDeclaration) -> Result<StructDeclaration, AllocError>
    ensures { IfOk result (λ copy. copy ≡ declaration.now) }
{
    declaration.clone()
}

fn copy_names(names: &Sequence<RegionName>) -> Result<Sequence<RegionName>, AllocError>
    ensures { IfOk result (λ copy. copy ≡ names.now) }
{
    names.clone()
}

/// Returns a copy of a list of types.
pub fn copy_types(types: &Sequence<Ty>) -> Result<Sequence<Ty>, AllocError>
    ensures { IfOk result (λ copy. copy ≡ types.now) }
{
    types.clone()
}

/// Returns a copy of a list of clauses.
pub fn copy_clauses(clauses: &Sequence<Outlives>) -> Result<Sequence<Outlives>, AllocError>
    ensures { IfOk result (λ copy. copy ≡ clauses.now) }
{
    clauses.clone()
}

fn copy_type(ty: &Ty) -> Result<Ty, AllocError>
    ensures { IfOk result (λ copy. copy ≡ ty.now) }
{
    ty.clone()
}

/// Returns a copy of a signature.
pub fn copy_signature(signature: &Signature) -> Result<Signature, AllocError>
    ensures { IfOk result (λ copy. copy ≡ signature.now) }
{
    Ok(Signature {
        regions: copy_names(&signature.regions)?,
        clauses: copy_clauses(&signature.clauses)?,
        parameters: copy_types(&signature.parameters)?,
        result: copy_type(&signature.result)?,
    })
}

fn copy_extern(declaration: &ExternDeclaration) -> Result<ExternDeclaration, AllocError>
    ensures { IfOk result (λ copy. copy ≡ declaration.now) }
{
    Ok(ExternDeclaration {
        name: copy_name(&declaration.name)?,
        signature: copy_signature(&declaration.signature)?,
    })
}

/// Returns whether a struct has as many regions as an instance gives it.
pub fn takes_regions(instance: &Instance, declaration: &StructDeclaration) -> bool
    ensures { result ≡ takes instance.now declaration.now }
{
    declaration.regions.len() == instance.regions.as_slice().len()
}

fn find_struct<'a>(
    structs: &'a IndexMap<Vec<u8>, KnownStruct>,
    name: &[u8],
) -> Option<&'a KnownStruct>
    ensures { option_copied result ≡ get_by (λ key. bytes_eq name.now key.items) structs.now }
{
    structs.get(name)
}

fn find_extern(externs: &IndexMap<Vec<u8>, usize>, name: &[u8]) -> Option<usize>
    ensures { result ≡ get_by (λ key. bytes_eq name.now key.items) externs.now }
{
    externs.get(name).copied()
}

fn copy_bytes(alloc: Global, bytes: &[u8]) -> Result<Vec<u8>, AllocError>
    ensures { IfOk result (λ copy. copy.items ≡ bytes.now) }
{
    bytes.to_vec(alloc)
}

fn add_struct(
    alloc: Global,
    structs: &mut IndexMap<Vec<u8>, KnownStruct>,
    name: &[u8],
    known: KnownStruct,
) -> Result<(), AllocError>
    ensures { OnOk result (Adds (λ key. key.items) structs.old structs.new name.now known) }
{
    let key = copy_bytes(alloc, name)?;
    structs.insert(key, known)?;
    Ok(())
}

fn add_extern(
    alloc: Global,
    externs: &mut IndexMap<Vec<u8>, usize>,
    name: &[u8],
    position: usize,
) -> Result<(), AllocError>
    ensures { OnOk result (Adds (λ key. key.items) externs.old externs.new name.now position) }
{
    let key = copy_bytes(alloc, name)?;
    externs.insert(key, position)?;
    Ok(())
}

fn struct_at(declarations: &[Declaration], position: usize) -> Option<&StructDeclaration>
    ensures { option_copied result ≡ struct_there declarations.now position }
{
    match declarations.get(position)? {
        Declaration::Struct(declaration) => Some(declaration),
        Declaration::Extern(_) => None,
    }
}

fn extern_at(declarations: &[Declaration], position: usize) -> Option<&ExternDeclaration>
    ensures { option_copied result ≡ extern_there declarations.now position }
{
    match declarations.get(position)? {
        Declaration::Struct(_) => None,
        Declaration::Extern(declaration) => Some(declaration),
    }
}

/// Appends a struct to declarations.
fn push_struct(
    declarations: &mut Sequence<Declaration>,
    declaration: &StructDeclaration,
) -> Result<(), AllocError>
    ensures { OnOk result (declarations.new ≡ declarations.old ++ Declaration.Struct declaration.now ∷ []) }
{
    let copy = Declaration::Struct(copy_struct(declaration)?);
    declarations.push(copy)
}

/// Appends an extern function to declarations.
fn push_extern(
    declarations: &mut Sequence<Declaration>,
    declaration: &ExternDeclaration,
) -> Result<(), AllocError>
    ensures { OnOk result (declarations.new ≡ declarations.old ++ Declaration.Extern declaration.now ∷ []) }
{
    let copy = Declaration::Extern(copy_extern(declaration)?);
    declarations.push(copy)
}

impl Table {
    /// Returns an empty table.
    pub(crate) fn new(alloc: Global) -> Table
        ensures { result ≡ [] }
    {
        Table {
            declarations: Sequence::new(alloc),
            structs: IndexMap::new(alloc),
            externs: IndexMap::new(alloc),
        }
    }

    /// Returns the table with one more declaration, after the others.
    pub(crate) fn with(self, alloc: Global, declaration: &Declaration) -> Result<Table, AllocError>
        ensures { IfOk result (λ table. table ≡ self ++ declaration.now ∷ []) }
    {
        match declaration {
            Declaration::Struct(declaration) => self.with_struct(alloc, declaration),
            Declaration::Extern(declaration) => self.with_extern(alloc, declaration),
        }
    }

    fn with_struct(
        self,
        alloc: Global,
        declaration: &StructDeclaration,
    ) -> Result<Table, AllocError>
        ensures { IfOk result (λ table. table ≡ self ++ Declaration.Struct declaration.now ∷ []) }
    {
        let known = self.known_behind(alloc, declaration)?;
        let Table {
            mut declarations,
            mut structs,
            externs,
        } = self;
        push_struct(&mut declarations, declaration)?;
        add_struct(
            alloc,
            &mut structs,
            declaration.name.bytes.as_slice(),
            known,
        )?;
        Ok(Table {
            declarations,
            structs,
            externs,
        })
    }

    fn with_extern(
        self,
        alloc: Global,
        declaration: &ExternDeclaration,
    ) -> Result<Table, AllocError>
        ensures { IfOk result (λ table. table ≡ self ++ Declaration.Extern declaration.now ∷ []) }
    {
        let position = self.declarations.len();
        let Table {
            mut declarations,
            structs,
            mut externs,
        } = self;
        push_extern(&mut declarations, declaration)?;
        add_extern(
            alloc,
            &mut externs,
            declaration.name.bytes.as_slice(),
            position,
        )?;
        Ok(Table {
            declarations,
            structs,
            externs,
        })
    }

    /// Returns what is stored of the struct with this name.
    fn known_struct(&self, name: &ItemName) -> Option<&KnownStruct>
        ensures { option_copied result ≡ known_struct (reverse self.now) name.now.bytes }
    {
        find_struct(&self.structs, name.bytes.as_slice())
    }

    /// Returns the position of the extern function with this name.
    fn known_extern(&self, name: &ItemName) -> Option<usize>
        ensures { result ≡ known_extern (reverse self.now) name.now.bytes }
    {
        find_extern(&self.externs, name.bytes.as_slice())
    }

    /// Returns the struct with this name.
    pub(crate) fn struct_of(&self, name: &ItemName) -> Option<&StructDeclaration>
        ensures { option_copied result ≡ struct_of self.now name.now }
    {
        match self.known_struct(name) {
            Some(known) => struct_at(self.declarations.as_slice(), known.position),
            None => None,
        }
    }

    /// Returns the extern function with this name.
    pub(crate) fn extern_of(&self, name: &ItemName) -> Option<&ExternDeclaration>
        ensures { option_copied result ≡ extern_of self.now name.now }
    {
        match self.known_extern(name) {
            Some(position) => extern_at(self.declarations.as_slice(), position),
            None => None,
        }
    }

    /// Returns whether the struct with this name is stored as one that needs drop.
    fn marks_drop(&self, name: &ItemName) -> bool
        ensures { result ≡ option_map_or (λ known. known.holds_drop) (known_struct (reverse self.now) name.now.bytes) false }
    {
        match self.known_struct(name) {
            Some(known) => known.holds_drop,
            None => false,
        }
    }

    /// Returns whether the struct of an instance is declared, with its number of regions.
    pub(crate) fn declares(&self, instance: &Instance) -> bool
        ensures { result ≡ option_map_or (takes instance.now) (struct_of self.now instance.now.name) false }
    {
        match self.struct_of(&instance.name) {
            Some(declaration) => takes_regions(instance, declaration),
            None => false,
        }
    }

    fn struct_holds_drop(&self, instance: &Instance) -> bool
        ensures { result ≡ struct_holding (reverse self.now) instance.now }
    {
        self.declares(instance) && self.marks_drop(&instance.name)
    }

    /// Returns whether a type needs drop, closures aside.
    pub(crate) fn holds_drop(&self, ty: &Ty) -> bool
        ensures { result ≡ holding self.now ty.now }
    {
        match ty.references.as_slice() {
            [] => match &ty.base {
                Base::Int => false,
                Base::Struct(instance) => self.struct_holds_drop(instance),
                Base::Closure(_) => false,
            },
            [_, ..] => false,
        }
    }

    fn any_holds_drop(&self, types: &[Ty]) -> bool
        ensures { result ≡ list_any (holding self.now) types.now }
    {
        types.iter().any(|ty| self.holds_drop(ty))
    }

    /// Returns whether a struct needs drop whose fields mention structs of the table.
    fn finds_drop(&self, declaration: &StructDeclaration) -> bool
        ensures { result ≡ declaration.now.has_drop || list_any (holding self.now) declaration.now.fields }
    {
        declaration.has_drop || self.any_holds_drop(declaration.fields.as_slice())
    }

    /// Returns what the fields of the struct with this name are stored to demand.
    fn known_pairs(&self, name: &ItemName) -> Option<&RegionPairs>
        ensures { option_copied result ≡ option_map (λ known. known.pairs) (known_struct (reverse self.now) name.now.bytes) }
    {
        match self.known_struct(name) {
            Some(known) => Some(&known.pairs),
            None => None,
        }
    }

    /// Returns what the declaration of a struct demands of the struct's own regions.
    fn struct_pairs(&self, instance: &Instance) -> Option<&RegionPairs>
        ensures { unwrap_or (option_copied result) [] ≡ pairs_of_struct (reverse self.now) instance.now }
    {
        if self.declares(instance) {
            self.known_pairs(&instance.name)
        } else {
            None
        }
    }

    /// Appends what the declaration of a struct demands, with the struct's regions replaced by its arguments.
    fn push_struct_pairs(
        &self,
        constraints: &mut Vec<Constraint>,
        instance: &Instance,
    ) -> Result<(), AllocError>
        ensures { OnOk result (constraints.new.items
            ≡ constraints.old.items ++ map (replaced_pair instance.now.regions) (pairs_of_struct (reverse self.now) instance.now)) }
    {
        match self.struct_pairs(instance) {
            Some(pairs) => pairs.push_replaced(constraints, instance.regions.as_slice()),
            None => Ok(()),
        }
    }

    fn push_base_pairs(
        &self,
        constraints: &mut Vec<Constraint>,
        base: &Base,
    ) -> Result<(), AllocError>
        ensures { OnOk result (constraints.new.items
            ≡ constraints.old.items ++ base_pairs (pairs_of_struct (reverse self.now)) base.now) }
    {
        match base {
            Base::Int | Base::Closure(_) => Ok(()),
            Base::Struct(instance) => self.push_struct_pairs(constraints, instance),
        }
    }

    /// Appends what a well-formed type demands.
    pub(crate) fn push_well_formed(
        &self,
        constraints: &mut Vec<Constraint>,
        ty: &Ty,
    ) -> Result<(), AllocError>
        ensures { OnOk result (constraints.new.items ≡ constraints.old.items ++ well_formed_pairs self.now ty.now) }
    {
        push_reference_pairs(constraints, ty.references.as_slice(), &ty.base)?;
        self.push_base_pairs(constraints, &ty.base)
    }

    /// Returns what well-formed types demand, of each in turn.
    pub(crate) fn pairs_of_types(
        &self,
        alloc: Global,
        types: &[Ty],
    ) -> Result<Vec<Constraint>, AllocError>
        ensures { IfOk result (λ pairs. pairs.items ≡ flat_map (well_formed_pairs self.now) types.now) }
    {
        let mut pairs = Vec::new(alloc);
        for ty in types {
            self.push_well_formed(&mut pairs, ty)?;
        }
        Ok(pairs)
    }

    /// Returns what the types of a struct's fields demand of its own regions, if they mention structs of the table.
    fn field_pairs(
        &self,
        alloc: Global,
        declaration: &StructDeclaration,
    ) -> Result<RegionPairs, AllocError>
        ensures { IfOk result (λ pairs. pairs ≡ pairs_of_fields (pairs_of_struct (reverse self.now)) declaration.now) }
    {
        let pairs = self.pairs_of_types(alloc, declaration.fields.as_slice())?;
        let regions = declaration.regions.as_slice();
        RegionPairs::among(alloc, regions.len() + 1, &pairs)
    }

    /// Returns what to store of a struct that comes after the declarations of the table.
    fn known_behind(
        &self,
        alloc: Global,
        declaration: &StructDeclaration,
    ) -> Result<KnownStruct, AllocError>
        ensures { IfOk result (λ known. known ≡ behind (reverse self.now) declaration.now) }
    {
        Ok(KnownStruct {
            position: self.declarations.len(),
            holds_drop: self.finds_drop(declaration),
            pairs: self.field_pairs(alloc, declaration)?,
        })
    }
}
