//! Units that keep every typing rule.
ghost use Rattle.std.specs.Prelude.{◌≡◌, ◌≤◌, true, length, map, IfOk, OnOk};
ghost use Rattle.std.specs.List.{list_all};
ghost use Rattle.std.specs.Arc.{arc_value};
ghost use Rattle.std.specs.Option.{option_copied};
ghost use Rattle.bc_syntax.specs.Children.{children_of};
ghost use Rattle.bc_syntax.specs.Fits.{clause_fits, let_fits};
ghost use Rattle.bc_bodies.specs.Children.{child_of};
ghost use Rattle.bc_bodies.specs.Mir.{mir_of};
ghost use Rattle.bc_mir.specs.Typing.{first_unfit as first_misfit, misfit as misfit_of, HasNoMisfit};
ghost use Rattle.bc_mir.specs.Typed.{IsTyped, steps_fit};
ghost use Rattle.bc_mir.specs.WellFormed.{input_types, let_types};
ghost use Rattle.bc_mir.specs.declared.typed.Where.{Where};

use crate::typing::{fits_at, fits_header};
use bc_bodies::{Child, Draft, KidHeader, Point, Step};
use bc_syntax::{Header, Outlives, Ty, Unit, UnitKind};
use bc_types::GoodTypes;
use std::alloc::{AllocError, Global};
use std::marker::Model;
use std::sync::Arc;
use thiserror::Error;

/// Where a unit first breaks a typing rule: its header, otherwise its least point.
#[derive(Clone, Copy, Debug, PartialEq, Eq)]
pub enum Where {
    Header,
    At(Point),
}

/// Why `type_unit` did not type a unit.
#[derive(Clone, Copy, Debug, PartialEq, Eq, Error)]
pub enum IllFault {
    #[error("a typing rule fails")]
    Ill(Where),
    #[error("out of memory")]
    NoMemory,
}

impl From<AllocError> for IllFault {
    ghost use Rattle.bc_mir.specs.declared.typed.IllFault.TheVariants.{NoMemory};

    ghost from_gives = { λ _ fault. fault ≡ NoMemory };

    fn from(_refused: AllocError) -> IllFault {
        IllFault::NoMemory
    }
}

fn first_unfit(draft: &Draft) -> Option<Point>
    ensures { result ≡ first_misfit draft.now draft.now.steps }
{
    for step in draft.steps() {
        if !fits_at(draft, &step.instruction) {
            return Some(step.point);
        }
    }
    None
}

/// Returns where a unit first breaks a typing rule, if it does.
fn misfit(draft: &Draft) -> Option<Where>
    ensures { result ≡ misfit_of draft.now }
{
    if !fits_header(draft) {
        return Some(Where::Header);
    }
    first_unfit(draft).map(Where::At)
}

/// A unit that keeps every typing rule, with its points in one list. It borrows nothing.
pub struct Typed {
    pub(crate) draft: Draft,
}

// Handwritten, so that it is proved once, and not again in each crate above.
impl Drop for Typed {
    fn drop(self) {
        let Self { draft: _ } = self;
    }
}

impl Model for Typed {
    ghost use Rattle.bc_bodies.specs.Mir.{Mir};
    ghost use Rattle.bc_mir.specs.Typed.{IsTyped};

    ghost Value = { Mir };

    ghost view = { λ t. t.draft };

    ghost invariant = { λ t. IsTyped t.draft };
}

impl Typed {
    /// Returns the number of universal regions, 1 to 16: `'static` and the declared ones.
    pub fn universals(&self) -> u8
        ensures value { result ≡ self.now.universals }
        ensures typed { IsTyped self.now }
    {
        self.draft.universals()
    }

    /// Returns the declarations over which the unit is typed.
    pub fn types(&self) -> &GoodTypes
        ensures { result.now ≡ self.now.types }
    {
        self.draft.types()
    }

    /// Returns the children with their headers, ascending by number.
    pub fn children(&self) -> &[Child]
        ensures { result.now ≡ self.now.children }
    {
        self.draft.children()
    }

    /// Returns the header of the child of a number, or `None` if there is no such child.
    pub fn child(&self, number: u8) -> Option<&Header>
        ensures { option_copied result ≡ child_of self.now.children number }
    {
        self.draft.child(number)
    }

    /// Returns whether the unit is a function or a closure.
    pub fn kind(&self) -> UnitKind
        ensures { result ≡ self.now.kind }
    {
        self.draft.kind()
    }

    /// Returns the numbers of a closure's external regions, ascending: those that occur in the types of its captures.
    pub fn externals(&self) -> &[usize]
        ensures { result.now ≡ self.now.externals }
    {
        self.draft.externals()
    }

    /// Returns the `where` clauses, between universal regions.
    pub fn clauses(&self) -> &[Outlives]
        ensures value { result.now ≡ self.now.clauses }
        ensures declared { list_all (clause_fits self.now.universals) result.now ≡ true }
    {
        self.draft.clauses()
    }

    /// Returns the types of the locals, 1 to 256. Each region in them is a variable or declared.
    pub fn locals(&self) -> &[Ty]
        ensures value { result.now ≡ self.now.locals }
        ensures some { 1 ≤ length result.now }
        ensures few { length result.now ≤ 256 }
        ensures declared { list_all (let_fits self.now.universals) result.now ≡ true }
    {
        self.draft.locals()
    }

    /// Returns the types of the captures and the parameters, in order.
    pub fn inputs(&self) -> &[Ty]
        ensures value { result.now ≡ input_types self.now }
        ensures declared { list_all (let_fits self.now.universals) result.now ≡ true }
        ensures typed { IsTyped self.now }
    {
        &self.locals()[1..self.draft.first_let()]
    }

    /// Returns the types of the `let` locals, in order.
    pub fn lets(&self) -> &[Ty]
        ensures { result.now ≡ let_types self.now }
    {
        &self.draft.locals()[self.draft.first_let()..]
    }

    /// Returns the points in order, 1 to 4,096, each with its instruction. Each instruction keeps the typing rules.
    pub fn steps(&self) -> &[Step]
        ensures value { result.now ≡ self.now.steps }
        ensures some { 1 ≤ length result.now }
        ensures few { length result.now ≤ 4096 }
        ensures fit { first_misfit self.now result.now ≡ None }
        ensures declared { steps_fit self.now.universals (length self.now.locals) result.now ≡ true }
    {
        self.draft.steps()
    }
}

/// Returns one more owner of declarations.
fn share(types: &Arc<GoodTypes, Global>) -> Result<Arc<GoodTypes, Global>, AllocError>
    ensures { IfOk result (λ shared. arc_value shared ≡ arc_value types.now) }
{
    Arc::try_clone(types)
}

/// Types a unit over declarations and the headers of its children: one for each closure that the unit names, ascending. Returns `Ill` if
/// the unit breaks a typing rule: at the header if a header rule fails, otherwise at the least point where a rule fails. Returns `NoMemory`
/// if out of memory. (The language is that of the rustc-dev-guide, "The MIR".)
pub fn type_unit(
    alloc: Global,
    types: &Arc<GoodTypes, Global>,
    unit: &Unit,
    kids: &[KidHeader<'_>],
) -> Result<Typed, IllFault>
    requires kids { map (λ kid. kid.number) kids.now ≡ children_of unit.now }
    ensures ok { IfOk result (λ typed. typed ≡ mir_of (arc_value types.now) kids.now unit.now) }
    ensures fits { OnOk result (HasNoMisfit (mir_of (arc_value types.now) kids.now unit.now)) }
    ensures ill { (place : Where) → result ≡ Err (IllFault.Ill place) → misfit_of (mir_of (arc_value types.now) kids.now unit.now) ≡ Some place }
{
    let shared = share(types)?;
    let draft = Draft::of(alloc, shared, kids, unit.body())?;
    match misfit(&draft) {
        None => Ok(Typed { draft }),
        Some(place) => Err(IllFault::Ill(place)),
    }
}
