//! Lookups in a typed unit: the types of places, operands and rvalues, and the closures in places.
ghost use Rattle.std.specs.Prelude.{◌≡◌, ◌++◌, ⊤, true, Some, IfOk, OnOk, MatchOption};
ghost use Rattle.bc_bodies.specs.Places.{has_no_field, takes_no_field};
ghost use Rattle.std.specs.List.{list_any};
ghost use Rattle.bc_types.specs.Drops.{holds_drop};
ghost use Rattle.bc_mir.specs.Drops.{closure_holds_drop, type_holds_drop};
ghost use Rattle.bc_bodies.specs.PlaceTypes.{type_of_place as place_there, references_of_place as dereferenced_there};
ghost use Rattle.bc_mir.specs.Rules.{type_of_operand as operand_there, type_to_borrow as borrowed_there, type_of_rvalue as rvalue_there, closure_in as closure_there};

use crate::typed::Typed;
use crate::value_types::{
    closure_in, lent_type_of_operand, lent_type_to_borrow, type_of_borrow, type_of_operand,
    type_of_rvalue,
};
use bc_bodies::{lent_type_of_place, push_references_of_place, type_of_place};
use bc_shapes::{TyRef, closure_behind};
use bc_syntax::{Borrow, ClosureInstance, Operand, Place, Reference, Rvalue, Ty};
use bc_types::GoodTypes;
use std::alloc::{AllocError, Global};

fn any_holds_drop(types: &GoodTypes, captures: &[Ty]) -> bool
    ensures { result ≡ list_any (holds_drop types.now) captures.now }
{
    captures.iter().any(|ty| types.holds_drop(ty))
}

impl Typed {
    /// Returns the type of a place, or `None` if it has none. It is the type of the local, followed through each projection.
    /// (rustc-dev-guide, "The MIR".)
    pub fn place_type(&self, alloc: Global, place: &Place) -> Result<Option<Ty>, AllocError>
        ensures { IfOk result (λ ty. ty ≡ place_there self.now place.now) }
    {
        type_of_place(alloc, &self.draft, place)
    }

    /// Returns the type of a place without fields, borrowed from the type of its local. Returns `None` if the place has no type or has a
    /// field. (rustc-dev-guide, "The MIR".)
    pub fn lent_type_of_place(&self, place: &Place) -> Option<TyRef<'_>>
        ensures value { MatchOption result ⊤ (λ ty. place_there self.now place.now ≡ Some ty) }
        ensures found { has_no_field place.now ≡ true → result ≡ place_there self.now place.now }
    {
        lent_type_of_place(&self.draft, place)
    }

    /// Appends the references that a place dereferences, in order, and none if its local is not declared. (RFC 2094, "Reborrow
    /// constraints".)
    pub fn push_references_of_place(
        &self,
        alloc: Global,
        out: &mut Vec<Reference>,
        place: &Place,
    ) -> Result<(), AllocError>
        ensures { OnOk result (out.new.items ≡ out.old.items ++ dereferenced_there self.now place.now) }
    {
        push_references_of_place(alloc, out, &self.draft, place)
    }

    /// Returns the type of an operand, or `None` if it breaks a rule.
    pub fn type_of_operand(
        &self,
        alloc: Global,
        operand: &Operand,
    ) -> Result<Option<Ty>, AllocError>
        ensures { IfOk result (λ ty. ty ≡ operand_there self.now operand.now) }
    {
        type_of_operand(alloc, &self.draft, operand)
    }

    /// Returns the type of an operand that copies or moves a place without fields, borrowed from the type of the local. Returns `None` for
    /// any other operand, and if the operand breaks a rule.
    pub fn lent_type_of_operand(&self, operand: &Operand) -> Option<TyRef<'_>>
        ensures value { MatchOption result ⊤ (λ ty. operand_there self.now operand.now ≡ Some ty) }
        ensures found { takes_no_field operand.now ≡ true → result ≡ operand_there self.now operand.now }
    {
        lent_type_of_operand(&self.draft, operand)
    }

    /// Returns the type of a borrowed place without fields, borrowed from the type of its local. Returns `None` for any other place, and if
    /// the borrow breaks a rule.
    pub fn lent_type_to_borrow(&self, borrow: &Borrow) -> Option<TyRef<'_>>
        ensures value { MatchOption result ⊤ (λ ty. borrowed_there self.now borrow.now.reference.mutability borrow.now.place ≡ Some ty) }
        ensures found { has_no_field borrow.now.place ≡ true → result ≡ borrowed_there self.now borrow.now.reference.mutability borrow.now.place }
    {
        lent_type_to_borrow(&self.draft, borrow)
    }

    /// Returns the type of a borrow, or `None` if it breaks a rule.
    pub fn type_of_borrow(&self, alloc: Global, borrow: &Borrow) -> Result<Option<Ty>, AllocError>
        ensures { IfOk result (λ ty. ty ≡ rvalue_there self.now (Rvalue.Borrow borrow.now)) }
    {
        type_of_borrow(alloc, &self.draft, borrow)
    }

    /// Returns the type of an rvalue, or `None` if it breaks a rule.
    pub fn type_of_rvalue(&self, alloc: Global, rvalue: &Rvalue) -> Result<Option<Ty>, AllocError>
        ensures { IfOk result (λ ty. ty ≡ rvalue_there self.now rvalue.now) }
    {
        type_of_rvalue(alloc, &self.draft, rvalue)
    }

    /// Returns the closure in a place that may be invoked, or `None` if there is none.
    pub fn closure_in(
        &self,
        alloc: Global,
        place: &Place,
    ) -> Result<Option<ClosureInstance>, AllocError>
        ensures { IfOk result (λ closure. closure ≡ closure_there self.now place.now) }
    {
        closure_in(alloc, &self.draft, place)
    }

    fn closure_holds_drop(&self, closure: &ClosureInstance) -> bool
        ensures { result ≡ closure_holds_drop self.now closure.now }
    {
        match self.child(closure.number) {
            Some(header) => any_holds_drop(self.types(), header.captures.as_slice()),
            None => false,
        }
    }

    /// Returns whether a type needs drop: it is a struct that does, or a closure with a capture whose type does.
    pub fn holds_drop(&self, ty: &Ty) -> bool
        ensures { result ≡ type_holds_drop self.now ty.now }
    {
        if self.types().holds_drop(ty) {
            return true;
        }
        match closure_behind(ty.references.as_slice(), &ty.base) {
            Some(closure) => self.closure_holds_drop(closure),
            None => false,
        }
    }
}
