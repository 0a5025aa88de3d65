//! Which typing rule an ill unit breaks first, and where.
ghost use Rattle.std.specs.Prelude.{◌≡◌, ◌+◌, ◌<◌, ◌^◌, length, map, IfOk};
ghost use Rattle.std.specs.Arc.{arc_value};
ghost use Rattle.std.specs.Option.{option_map};
ghost use Rattle.bc_syntax.specs.Children.{children_of};
ghost use Rattle.bc_bodies.specs.Mir.{mir_of};
ghost use Rattle.bc_mir.specs.Typing.{misfit};
ghost use Rattle.bc_breaches.specs.Typing.{struct_breach as breach_of_struct, closure_breach as breach_of_closure, steps_breach as breach_of_steps, unit_breach as breach_of_unit, place_of};

use crate::rule::PointBreach;
use crate::values::point_breach;
use bc_bodies::{Draft, KidHeader, Point, Step, are_known};
use bc_syntax::{Ty, Unit};
use bc_types::GoodTypes;
use std::alloc::{AllocError, Global};
use std::sync::Arc;

/// Which typing rule a unit breaks, and where.
///
/// `Struct`, at the header: the struct in the type of this local is not declared with its number of regions. `Closure`, at the header: the
/// closure in the type of this local is no child, or has another number of external regions. `Point`: a point, and what it breaks. Locals
/// are numbers. (rustc-dev-guide, "The MIR".)
#[derive(Clone, Copy)]
pub enum IllBreach {
    Struct { local: usize },
    Closure { local: usize },
    Point { point: Point, breach: PointBreach },
}

/// Returns the first local, from a number on, whose struct is not declared.
fn struct_breach(draft: &Draft, local: usize, locals: &[Ty]) -> Option<IllBreach>
    requires { local + length locals.now < 2 ^ 64 }
    ensures { result ≡ breach_of_struct draft.now local locals.now }
{
    match locals {
        [] => None,
        [_, more @ ..] => {
            if draft.types().declares(&locals[..1]) {
                struct_breach(draft, local + 1, more)
            } else {
                Some(IllBreach::Struct { local })
            }
        }
    }
}

/// Returns the first local, from a number on, whose closure is not known.
fn closure_breach(draft: &Draft, local: usize, locals: &[Ty]) -> Option<IllBreach>
    requires { local + length locals.now < 2 ^ 64 }
    ensures { result ≡ breach_of_closure draft.now local locals.now }
{
    match locals {
        [] => None,
        [_, more @ ..] => {
            if are_known(draft.children(), &locals[..1]) {
                closure_breach(draft, local + 1, more)
            } else {
                Some(IllBreach::Closure { local })
            }
        }
    }
}

fn steps_breach(
    alloc: Global,
    draft: &Draft,
    steps: &[Step],
) -> Result<Option<IllBreach>, AllocError>
    ensures { IfOk result (λ found. found ≡ breach_of_steps draft.now steps.now) }
{
    for step in steps {
        match point_breach(alloc, draft, &step.instruction)? {
            Some(breach) => {
                return Ok(Some(IllBreach::Point {
                    point: step.point,
                    breach,
                }));
            }
            None => {}
        }
    }
    Ok(None)
}

fn draft_breach(alloc: Global, draft: &Draft) -> Result<Option<IllBreach>, AllocError>
    ensures { IfOk result (λ found. found ≡ breach_of_unit draft.now) }
{
    if let Some(breach) = struct_breach(draft, 0, draft.locals()) {
        return Ok(Some(breach));
    }
    if let Some(breach) = closure_breach(draft, 0, draft.locals()) {
        return Ok(Some(breach));
    }
    steps_breach(alloc, draft, draft.steps())
}

/// Returns one more owner of declarations.
fn share(types: &Arc<GoodTypes, Global>) -> Result<Arc<GoodTypes, Global>, AllocError>
    ensures { IfOk result (λ shared. arc_value shared ≡ arc_value types.now) }
{
    Arc::try_clone(types)
}

/// Returns the first typing rule that a unit breaks, over declarations and the headers of its children: at its header, otherwise at its least
/// point, where `type_unit` finds it. At a point the rules come in this order: the label of a `call` or an `invoke`; the target of an
/// assignment; the place that is borrowed or invoked, and what is created or called; the operands in order; the labels of an `if`; the
/// destination; the shape of the target or destination. Returns `None` exactly if the unit breaks none. (rustc-dev-guide, "The MIR".)
pub fn ill_breach(
    alloc: Global,
    types: &Arc<GoodTypes, Global>,
    unit: &Unit,
    kids: &[KidHeader<'_>],
) -> Result<Option<IllBreach>, AllocError>
    requires kids { map (λ kid. kid.number) kids.now ≡ children_of unit.now }
    ensures breach { IfOk result (λ found. found ≡ breach_of_unit (mir_of (arc_value types.now) kids.now unit.now)) }
    // It is where the unit is ill.
    ensures place { IfOk result (λ found. option_map place_of found ≡ misfit (mir_of (arc_value types.now) kids.now unit.now)) }
{
    let shared = share(types)?;
    let draft = Draft::of(alloc, shared, kids, unit.body())?;
    draft_breach(alloc, &draft)
}
