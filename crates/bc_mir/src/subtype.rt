//! Subtypes (RFC 2094, "Subtyping").
ghost use Rattle.std.specs.Prelude.{◌≡◌, ◌++◌, OnOk};
ghost use Rattle.bc_types.specs.Subtyping.{sub};

use crate::typed::Typed;
use bc_shapes::TyRef;
use bc_syntax::Ty;
use bc_types::{Constraint, push_sub};
use std::alloc::AllocError;

impl Typed {
    /// Appends the constraints that make the first type a subtype of the second, if both have the same shape. (RFC 2094, "Subtyping".)
    ///
    /// Only tests of this repository call it: the analysis takes types apart that are lent (`push_sub`).
    pub fn push_subtype(
        &self,
        constraints: &mut Vec<Constraint>,
        value: &Ty,
        target: &Ty,
    ) -> Result<(), AllocError>
        ensures { OnOk result (constraints.new.items ≡ constraints.old.items ++ sub self.now.types value.now target.now) }
    {
        let value = TyRef::of(value);
        let target = TyRef::of(target);
        push_sub(constraints, self.types(), &value, &target)
    }
}
