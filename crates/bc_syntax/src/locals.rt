//! The locals of a body in order: those that its header declares, then the `let` locals.
ghost use Rattle.std.specs.Prelude.{◌≡◌, ◌++◌, IfOk, OnOk};
ghost use Rattle.bc_syntax.specs.Locals.{first_let, locals_of};

use crate::syntax::{Body, Header, Ty};
use std::alloc::{AllocError, Global};

fn copy_type(ty: &Ty) -> Result<Ty, AllocError>
    ensures { IfOk result (λ copy. copy ≡ ty.now) }
{
    ty.clone()
}

fn push_types(types: &mut Vec<Ty>, more: &[Ty]) -> Result<(), AllocError>
    ensures { OnOk result (types.new.items ≡ types.old.items ++ more.now) }
{
    for ty in more {
        types.push(copy_type(ty)?)?;
    }
    Ok(())
}

impl Header {
    /// Returns the number of the first `let` local: one for the result, and one for each capture and parameter. (rustc-dev-guide, "The
    /// MIR").
    pub fn first_let(&self) -> usize
        ensures { result ≡ first_let self.now }
    {
        1 + self.captures.as_slice().len() + self.signature.parameters.as_slice().len()
    }
}

impl Body {
    /// Returns the types of the locals in order: the result, the captures, the parameters, the `let` locals. (rustc-dev-guide, "The MIR").
    pub fn local_types(&self, alloc: Global) -> Result<Vec<Ty>, AllocError>
        ensures { IfOk result (λ types. types.items ≡ locals_of self.now) }
    {
        let count = self.header.first_let().saturating_add(self.lets.len());
        let mut types = Vec::with_capacity(alloc, count)?;
        types.push(copy_type(&self.header.signature.result)?)?;
        push_types(&mut types, self.header.captures.as_slice())?;
        push_types(&mut types, self.header.signature.parameters.as_slice())?;
        push_types(&mut types, self.lets.as_slice())?;
        Ok(types)
    }
}
