//! Units of bodies that a text can spell.
ghost use Rattle.std.specs.Prelude.{◌≡◌, ◌+◌, ◌≤◌, ◌<◌, ◌&&◌, ◌↔◌, ◌++◌, [], IsTrue, IfSome, IsSome, nat_le, true, false, length, sum_by, take, drop, ℕ};
ghost use Rattle.std.specs.List.{list_all};
ghost use Rattle.bc_syntax.specs.Fits as spec;
ghost use Rattle.bc_syntax.specs.Fits.{Fits, universal_count as universals_of, point_count};
ghost use Rattle.bc_syntax.specs.Locals.{locals_of};

use bc_syntax::{
    Aggregate, Assignment, Base, Block, Body, Borrow, Call, ClosureInstance, Condition, Creation,
    Header, Instance, Invocation, ItemName, Operand, Outlives, Place, Projection, Reference,
    Region, RegionName, Rvalue, Signature, Statement, Terminator, Ty, Unit, UnitKind, is_new,
    is_word,
};

/// What a part of a text may name: region variables or none, the universal regions below a number, and the locals below another.
#[derive(Clone, Copy)]
pub struct Limits {
    pub variables: bool,
    pub universals: usize,
    pub locals: usize,
}

/// Returns whether a struct or an extern function may have this name: a word of at most 32 bytes that is no keyword.
pub fn item_fits(name: &ItemName) -> bool
    ensures { result ≡ spec.item_fits name.now }
{
    let bytes = name.bytes.as_slice();
    is_word(bytes) && bytes.len() <= 32
}

/// Returns whether these regions may be declared one after the other: their names have at most 16 bytes, and none is declared twice or is
/// `'static`.
pub fn are_new(names: &[RegionName]) -> bool
    ensures { result ≡ spec.are_new [] names.now }
{
    for index in 0..names.len() {
        if !is_new(&names[..index], &names[index]) {
            return false;
        }
    }
    true
}

fn region_fits(limits: Limits, region: Region) -> bool
    ensures { result ≡ spec.region_fits limits.variables limits.universals region }
{
    match region {
        Region::Universal(number) => usize::from(number) < limits.universals,
        Region::Variable(number) => limits.variables && number <= 1023,
    }
}

fn each_region_fits(limits: Limits, regions: &[Region]) -> bool
    ensures { result ≡ list_all (spec.region_fits limits.variables limits.universals) regions.now }
{
    regions.iter().all(|region| region_fits(limits, *region))
}

fn regions_fit(limits: Limits, regions: &[Region]) -> bool
    ensures { result ≡ spec.regions_fit limits.variables limits.universals regions.now }
{
    each_region_fits(limits, regions) && regions.len() <= 15
}

fn instance_fits(limits: Limits, instance: &Instance) -> bool
    ensures { result ≡ spec.instance_fits limits.variables limits.universals instance.now }
{
    item_fits(&instance.name) && regions_fit(limits, instance.regions.as_slice())
}

fn closure_fits(limits: Limits, closure: &ClosureInstance) -> bool
    ensures { result ≡ spec.closure_fits limits.variables limits.universals closure.now }
{
    closure.number <= 63 && regions_fit(limits, closure.regions.as_slice())
}

fn clause_fits(universals: usize, clause: Outlives) -> bool
    ensures { result ≡ spec.clause_fits universals clause }
{
    usize::from(clause.longer) < universals && usize::from(clause.shorter) < universals
}

fn each_clause_fits(universals: usize, clauses: &[Outlives]) -> bool
    ensures { result ≡ list_all (spec.clause_fits universals) clauses.now }
{
    clauses
        .iter()
        .all(|clause| clause_fits(universals, *clause))
}

/// Returns whether these are at most 32 clauses between universal regions below this number.
pub fn clauses_fit(universals: usize, clauses: &[Outlives]) -> bool
    ensures { result ≡ spec.clauses_fit universals clauses.now }
{
    each_clause_fits(universals, clauses) && clauses.len() <= 32
}

fn reference_fits(limits: Limits, reference: Reference) -> bool
    ensures { result ≡ spec.reference_fits limits.variables limits.universals reference }
{
    region_fits(limits, reference.region)
}

fn base_fits(limits: Limits, base: &Base) -> bool
    ensures { result ≡ spec.base_fits limits.variables limits.universals base.now }
{
    match base {
        Base::Int => true,
        Base::Struct(instance) => instance_fits(limits, instance),
        Base::Closure(_) => false,
    }
}

fn references_fit(limits: Limits, references: &[Reference]) -> bool
    ensures { result ≡ list_all (spec.reference_fits limits.variables limits.universals) references.now }
{
    references
        .iter()
        .all(|reference| reference_fits(limits, *reference))
}

/// Returns whether a text can spell a type within the limits: it has at most seven references, its regions may be named there, and its base
/// fits.
pub fn ty_fits(limits: Limits, ty: &Ty) -> bool
    ensures { result ≡ spec.ty_fits limits.variables limits.universals ty.now }
{
    let references = ty.references.as_slice();
    references_fit(limits, references) && references.len() <= 7 && base_fits(limits, &ty.base)
}

/// Returns whether a text can spell each of these types within the limits.
pub fn tys_fit(limits: Limits, tys: &[Ty]) -> bool
    ensures { result ≡ list_all (spec.ty_fits limits.variables limits.universals) tys.now }
{
    tys.iter().all(|ty| ty_fits(limits, ty))
}

/// Returns whether a type is a whole closure that fits, without references.
fn whole_closure_fits(limits: Limits, ty: &Ty) -> bool
    requires { limits.variables ≡ true }
    ensures { result ≡ spec.whole_closure_fits limits.universals ty.now.references ty.now.base }
{
    match ty.references.as_slice() {
        [] => match &ty.base {
            Base::Int => false,
            Base::Struct(_) => false,
            Base::Closure(closure) => closure_fits(limits, closure),
        },
        [_, ..] => false,
    }
}

fn let_fits(limits: Limits, ty: &Ty) -> bool
    requires { limits.variables ≡ true }
    ensures { result ≡ spec.let_fits limits.universals ty.now }
{
    ty_fits(limits, ty) || whole_closure_fits(limits, ty)
}

fn lets_fit(limits: Limits, lets: &[Ty]) -> bool
    requires { limits.variables ≡ true }
    ensures { result ≡ list_all (spec.let_fits limits.universals) lets.now }
{
    lets.iter().all(|ty| let_fits(limits, ty))
}

fn projection_fits(projection: Projection) -> bool
    ensures { result ≡ spec.projection_fits projection }
{
    match projection {
        Projection::Deref => true,
        Projection::Field(number) => number <= 15,
    }
}

fn projections_fit(projections: &[Projection]) -> bool
    ensures { result ≡ list_all spec.projection_fits projections.now }
{
    projections
        .iter()
        .all(|projection| projection_fits(*projection))
}

fn place_fits(limits: Limits, place: &Place) -> bool
    ensures { result ≡ spec.place_fits limits.locals place.now }
{
    let projections = place.projections.as_slice();
    usize::from(place.local) < limits.locals
        && projections_fit(projections)
        && projections.len() <= 8
}

fn operand_fits(limits: Limits, operand: &Operand) -> bool
    ensures { result ≡ spec.operand_fits limits.locals operand.now }
{
    match operand {
        Operand::Copy(place) => place_fits(limits, place),
        Operand::Move(place) => place_fits(limits, place),
        Operand::Number(number) => *number <= u32::MAX,
    }
}

fn each_operand_fits(limits: Limits, operands: &[Operand]) -> bool
    ensures { result ≡ list_all (spec.operand_fits limits.locals) operands.now }
{
    operands.iter().all(|operand| operand_fits(limits, operand))
}

fn operands_fit(limits: Limits, operands: &[Operand]) -> bool
    ensures { result ≡ spec.operands_fit limits.locals operands.now }
{
    each_operand_fits(limits, operands) && operands.len() <= 16
}

fn borrow_fits(limits: Limits, borrow: &Borrow) -> bool
    requires { limits.variables ≡ true }
    ensures { result ≡ spec.borrow_fits limits.universals limits.locals borrow.now }
{
    reference_fits(limits, borrow.reference) && place_fits(limits, &borrow.place)
}

fn aggregate_fits(limits: Limits, aggregate: &Aggregate) -> bool
    requires { limits.variables ≡ true }
    ensures { result ≡ spec.aggregate_fits limits.universals limits.locals aggregate.now }
{
    instance_fits(limits, &aggregate.instance)
        && operands_fit(limits, aggregate.operands.as_slice())
}

fn creation_fits(limits: Limits, creation: &Creation) -> bool
    requires { limits.variables ≡ true }
    ensures { result ≡ spec.creation_fits limits.universals limits.locals creation.now }
{
    closure_fits(limits, &creation.closure) && operands_fit(limits, creation.operands.as_slice())
}

fn rvalue_fits(limits: Limits, rvalue: &Rvalue) -> bool
    requires { limits.variables ≡ true }
    ensures { result ≡ spec.rvalue_fits limits.universals limits.locals rvalue.now }
{
    match rvalue {
        Rvalue::Use(operand) => operand_fits(limits, operand),
        Rvalue::Borrow(borrow) => borrow_fits(limits, borrow),
        Rvalue::Aggregate(aggregate) => aggregate_fits(limits, aggregate.get()),
        Rvalue::Closure(creation) => creation_fits(limits, creation.get()),
        Rvalue::Calc(operands) => operands_fit(limits, operands.as_slice()),
    }
}

fn assignment_fits(limits: Limits, assignment: &Assignment) -> bool
    requires { limits.variables ≡ true }
    ensures { result ≡ spec.assignment_fits limits.universals limits.locals assignment.now }
{
    place_fits(limits, &assignment.target) && rvalue_fits(limits, &assignment.value)
}

fn statement_fits(limits: Limits, statement: &Statement) -> bool
    requires { limits.variables ≡ true }
    ensures { result ≡ spec.statement_fits limits.universals limits.locals statement.now }
{
    match statement {
        Statement::Assign(assignment) => assignment_fits(limits, assignment),
        Statement::Dead(local) => usize::from(*local) < limits.locals,
        Statement::Drop(place) => place_fits(limits, place),
        Statement::Nop => true,
    }
}

fn condition_fits(limits: Limits, condition: &Condition) -> bool
    ensures { result ≡ spec.condition_fits limits.locals condition.now }
{
    operand_fits(limits, &condition.operand)
        && condition.then <= u8::MAX
        && condition.otherwise <= u8::MAX
}

fn call_fits(limits: Limits, call: &Call) -> bool
    requires { limits.variables ≡ true }
    ensures { result ≡ spec.call_fits limits.universals limits.locals call.now }
{
    place_fits(limits, &call.destination)
        && instance_fits(limits, &call.function)
        && operands_fit(limits, call.operands.as_slice())
        && call.target <= u8::MAX
}

fn invocation_fits(limits: Limits, invocation: &Invocation) -> bool
    requires { limits.variables ≡ true }
    ensures { result ≡ spec.invocation_fits limits.universals limits.locals invocation.now }
{
    place_fits(limits, &invocation.destination)
        && place_fits(limits, &invocation.closure)
        && regions_fit(limits, invocation.regions.as_slice())
        && operands_fit(limits, invocation.operands.as_slice())
        && invocation.target <= u8::MAX
}

fn terminator_fits(limits: Limits, terminator: &Terminator) -> bool
    requires { limits.variables ≡ true }
    ensures { result ≡ spec.terminator_fits limits.universals limits.locals terminator.now }
{
    match terminator {
        Terminator::Goto(label) => *label <= u8::MAX,
        Terminator::If(condition) => condition_fits(limits, condition),
        Terminator::Call(call) => call_fits(limits, call.get()),
        Terminator::Invoke(invocation) => invocation_fits(limits, invocation.get()),
        Terminator::Return => true,
        Terminator::Stop => true,
    }
}

fn statements_fit(limits: Limits, statements: &[Statement]) -> bool
    requires { limits.variables ≡ true }
    ensures { result ≡ list_all (spec.statement_fits limits.universals limits.locals) statements.now }
{
    statements
        .iter()
        .all(|statement| statement_fits(limits, statement))
}

fn block_fits(limits: Limits, block: &Block) -> bool
    requires { limits.variables ≡ true }
    ensures { result ≡ spec.block_fits limits.universals limits.locals block.now }
{
    statements_fit(limits, block.statements.as_slice())
        && terminator_fits(limits, &block.terminator)
}

fn blocks_fit(limits: Limits, blocks: &[Block]) -> bool
    requires { limits.variables ≡ true }
    ensures { result ≡ list_all (spec.block_fits limits.universals limits.locals) blocks.now }
{
    blocks.iter().all(|block| block_fits(limits, block))
}

/// Returns whether blocks have at most 4,096 points.
fn has_few_points(blocks: &[Block]) -> bool
    ensures { result ≡ nat_le (point_count blocks.now) 4096 }
{
    let mut points = 0usize;
    for block in blocks {
        let more = block.statements.len();
        if more >= 4096 - points {
            return false;
        }
        points += more + 1;
    }
    true
}

/// Returns whether these are at most 16 types that fit in a header.
fn parameters_fit(limits: Limits, parameters: &[Ty]) -> bool
    requires { limits.variables ≡ false }
    ensures { result ≡ spec.parameters_fit limits.universals parameters.now }
{
    tys_fit(limits, parameters) && parameters.len() <= 16
}

/// Returns what may be named in a header that declares these regions.
fn header_limits(regions: &[RegionName]) -> Limits
    requires { length regions.now ≤ 15 }
    ensures variables { result.variables ≡ false }
    ensures universals { result.universals ≡ length regions.now + 1 }
{
    Limits {
        variables: false,
        universals: regions.len() + 1,
        locals: 0,
    }
}

/// Returns whether a text can spell a signature that may declare at most `limit` regions.
pub(crate) fn signature_fits(signature: &Signature, limit: usize) -> bool
    requires { limit ≤ 15 }
    ensures { result ≡ spec.signature_fits limit signature.now }
{
    let regions = signature.regions.as_slice();
    if regions.len() > limit {
        return false;
    }
    let limits = header_limits(regions);
    are_new(regions)
        && clauses_fit(limits.universals, signature.clauses.as_slice())
        && parameters_fit(limits, signature.parameters.as_slice())
        && ty_fits(limits, &signature.result)
}

/// Returns whether a unit of this kind may capture these types. A function captures nothing.
fn kind_fits(limits: Limits, kind: UnitKind, captures: &[Ty]) -> bool
    requires { limits.variables ≡ false }
    ensures { result ≡ spec.kind_fits limits.universals kind captures.now }
{
    match kind {
        UnitKind::Function => match captures {
            [] => true,
            [_, ..] => false,
        },
        UnitKind::Closure => parameters_fit(limits, captures),
    }
}

/// Returns whether a text can spell the header of a unit.
fn header_fits(header: &Header) -> bool
    ensures { result ≡ spec.header_fits header.now }
{
    let regions = header.signature.regions.as_slice();
    regions.len() <= 15
        && kind_fits(
            header_limits(regions),
            header.kind,
            header.captures.as_slice(),
        )
        && signature_fits(&header.signature, 15)
}

/// Returns whether a text can spell a body: its numbers are within their limits, its regions and locals are declared, and its names are
/// words.
fn fits(body: &Body) -> bool
    ensures { IsTrue result ↔ Fits body.now }
{
    let blocks = body.blocks.as_slice();
    if !header_fits(&body.header) || body.lets.len() > 255 {
        return false;
    }
    let limits = Limits {
        variables: true,
        universals: body.header.signature.regions.len() + 1,
        locals: body.header.first_let() + body.lets.len(),
    };
    limits.locals <= 256
        && 1 <= blocks.len()
        && blocks.len() <= 256
        && lets_fit(limits, body.lets.as_slice())
        && has_few_points(blocks)
        && blocks_fit(limits, blocks)
}

/// Makes the unit of a body. Returns `None` exactly if no text spells it: a number or a count is past its limit, a region is not declared,
/// declared twice or declared as `'static`, a local is not declared, a name is not well formed, a header has a region variable, a closure
/// is in a wrong place, a function has captures, or there is no block.
pub fn unit_of(body: Body) -> Option<Unit>
    ensures body { IfSome result (λ unit. unit ≡ body) }
    ensures fits { IfSome result (λ _. Fits body) }
    ensures some { Fits body → IsSome result }
{
    if fits(&body) {
        Some(Unit::of_fitting(body))
    } else {
        None
    }
}
