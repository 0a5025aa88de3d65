//! What the well-formed types of a unit demand (RFC 1214).
ghost use Rattle.std.specs.Prelude.{◌≡◌, ◌++◌, true, IfOk, OnOk};
ghost use Rattle.std.specs.List.{flat_map, list_all};
ghost use Rattle.bc_mir.specs.WellFormed.{closure_pairs, type_pairs, let_pairs, implied_pairs, is_declared_pair};

use crate::typed::Typed;
use bc_bodies::arguments;
use bc_shapes::closure_behind;
use bc_syntax::{ClosureInstance, Ty};
use bc_types::Constraint;
use std::alloc::{AllocError, Global};

impl Typed {
    fn push_closure_pairs(
        &self,
        alloc: Global,
        constraints: &mut Vec<Constraint>,
        closure: &ClosureInstance,
    ) -> Result<(), AllocError>
        ensures { OnOk result (constraints.new.items ≡ constraints.old.items ++ closure_pairs self.now closure.now) }
    {
        match self.child(closure.number) {
            Some(header) => {
                let given = arguments(alloc, header, closure.regions.as_slice(), &[])?;
                let captures = header.captures.as_slice();
                self.types()
                    .push_replaced_well_formed(alloc, constraints, &given, captures)
            }
            None => Ok(()),
        }
    }

    fn push_type_pairs(
        &self,
        alloc: Global,
        constraints: &mut Vec<Constraint>,
        ty: &Ty,
    ) -> Result<(), AllocError>
        ensures { OnOk result (constraints.new.items ≡ constraints.old.items ++ type_pairs self.now ty.now) }
    {
        self.types().push_well_formed(constraints, ty)?;
        match closure_behind(ty.references.as_slice(), &ty.base) {
            Some(closure) => self.push_closure_pairs(alloc, constraints, closure),
            None => Ok(()),
        }
    }

    fn push_pairs_of_types(
        &self,
        alloc: Global,
        constraints: &mut Vec<Constraint>,
        types: &[Ty],
    ) -> Result<(), AllocError>
        ensures { OnOk result (constraints.new.items
            ≡ constraints.old.items ++ flat_map (type_pairs self.now) types.now) }
    {
        for ty in types {
            self.push_type_pairs(alloc, constraints, ty)?;
        }
        Ok(())
    }

    /// Appends what the types of the `let` locals demand, whether or not they are live or reached. Each region in the pointee of a
    /// reference outlives the region of the reference. A struct demands what the types of its fields do, and a closure what the types of
    /// its captures do. (RFC 1214.)
    pub fn push_let_pairs(
        &self,
        alloc: Global,
        constraints: &mut Vec<Constraint>,
    ) -> Result<(), AllocError>
        ensures { OnOk result (constraints.new.items ≡ constraints.old.items ++ let_pairs self.now) }
    {
        self.push_pairs_of_types(alloc, constraints, self.lets())
    }

    /// Returns what the types of the captures and the parameters demand. The body may rely on it, since each caller has to meet it. Each
    /// region is a variable or declared. (RFC 1214, "implied bounds".)
    pub fn implied_pairs(&self, alloc: Global) -> Result<Vec<Constraint>, AllocError>
        ensures value { IfOk result (λ pairs. pairs.items ≡ implied_pairs self.now) }
        ensures declared { IfOk result (λ pairs. list_all (is_declared_pair self.now.universals) pairs.items ≡ true) }
    {
        let mut pairs = Vec::new(alloc);
        self.push_pairs_of_types(alloc, &mut pairs, self.inputs())?;
        Ok(pairs)
    }
}
