//! What texts are read as: each form of a unit and of declarations once, and its value, checked part by part.
use bc_fits::unit_of;
use bc_syntax::{
    Base, Block, Body, ClosureInstance, Condition, Declaration, Header, Instance, Mutability,
    Operand, Outlives, Place, Projection, Reference, Region, RegionName, Rvalue, Sequence,
    Signature, Statement, StructDeclaration, Terminator, Ty, UnitKind, Variance,
};
use bc_text::{ReadFault, read_types, read_unit};
use std::alloc::Global;
use std::test::Fail;

/// Each form of a unit once.
const UNIT: &[u8] =
    b"fn<'a,'b>where'a:'b,'b:'static(int,&'a mut&'static Pair<'b,'a>)->&'b Leaf{let _3:&'?7 int;let _4:Pair<'?1,'static>;bb0{_3=&'?8 mut _2.*.*.4;_3=&'a _1;_0=calc(copy _1,move _3.*,7);_4=Pair<'?1023,'b>(move _1,5);_1=4294967295;dead _3;drop _4.0;nop;if copy _1 bb1 bb2;}bb1{_4.1=call make<'?2,'b>(copy _2)bb3;}bb2{goto bb4;}bb3{return;}bb4{stop;}}";

/// Each form of a closure once.
const CLOSURE: &[u8] =
    b"closure<'a,'b>where'b:'a[&'a int,Leaf](&'b mut int)->int{let _4:closure 63<'?3,'a>;let _5:closure 0;bb0{_4=closure 63<'?3,'a>(copy _1,move _2.0,5);_5=closure 7();_4.1=invoke _5.*<'b,'?9>(copy _3,8)bb1;}bb1{return;}}";

/// Each form of a declaration once.
const TYPES: &[u8] =
    b"struct Leaf{}struct List<+'a,='b>drop{&'a int;List<'b,'static>;}extern f<'a,'b>where'b:'a(&'a mut int,int)->Leaf;";

const STATIC: Region = Region::Universal(0);

const A: Region = Region::Universal(1);

const B: Region = Region::Universal(2);

fn shared(region: Region) -> Reference {
    Reference {
        region,
        mutability: Mutability::Shared,
    }
}

fn mutable(region: Region) -> Reference {
    Reference {
        region,
        mutability: Mutability::Mutable,
    }
}

fn is_instance(found: &Instance, name: &[u8], regions: &[Region]) -> bool {
    found.name.bytes.as_slice() == name && found.regions.as_slice() == regions
}

/// Returns whether a type is `int` with these references to it.
fn is_int(ty: &Ty, references: &[Reference]) -> bool {
    ty.references.as_slice() == references && matches!(ty.base, Base::Int)
}

/// Returns whether a type is this struct with these references to it.
fn is_struct(ty: &Ty, references: &[Reference], name: &[u8], regions: &[Region]) -> bool {
    match &ty.base {
        Base::Struct(instance) => {
            ty.references.as_slice() == references && is_instance(instance, name, regions)
        }
        Base::Int | Base::Closure(_) => false,
    }
}

fn is_closure(found: &ClosureInstance, number: u8, regions: &[Region]) -> bool {
    found.number == number && found.regions.as_slice() == regions
}

/// Returns whether a type is this closure.
fn is_whole_closure(ty: &Ty, number: u8, regions: &[Region]) -> bool {
    match &ty.base {
        Base::Closure(closure) => {
            ty.references.as_slice().is_empty() && is_closure(closure, number, regions)
        }
        Base::Int | Base::Struct(_) => false,
    }
}

fn is_place(place: &Place, local: u8, projections: &[Projection]) -> bool {
    place.local == local && place.projections.as_slice() == projections
}

fn is_copy(operand: &Operand, local: u8) -> bool {
    matches!(operand, Operand::Copy(place) if is_place(place, local, &[]))
}

fn is_move(operand: &Operand, local: u8, projections: &[Projection]) -> bool {
    matches!(operand, Operand::Move(place) if is_place(place, local, projections))
}

fn is_number(operand: &Operand, number: u32) -> bool {
    matches!(operand, Operand::Number(found) if *found == number)
}

/// Returns whether these are the names `'a` and `'b`.
fn are_a_and_b(regions: &[RegionName]) -> bool {
    matches!(regions, [first, second]
        if first.bytes.as_slice() == b"a".as_slice() && second.bytes.as_slice() == b"b".as_slice())
}

/// Returns the value that a statement assigns, if it assigns to this place.
fn assigned<'a>(
    statement: &'a Statement,
    local: u8,
    projections: &[Projection],
) -> Option<&'a Rvalue> {
    match statement {
        Statement::Assign(assignment) => {
            is_place(&assignment.target, local, projections).then_some(&assignment.value)
        }
        Statement::Dead(_) | Statement::Drop(_) | Statement::Nop => None,
    }
}

fn is_borrow(
    statement: &Statement,
    reference: Reference,
    local: u8,
    projections: &[Projection],
) -> bool {
    match assigned(statement, 3, &[]) {
        Some(Rvalue::Borrow(borrow)) => {
            borrow.reference == reference && is_place(&borrow.place, local, projections)
        }
        _ => false,
    }
}

fn is_calculation(statement: &Statement) -> bool {
    match assigned(statement, 0, &[]) {
        Some(Rvalue::Calc(operands)) => matches!(operands.as_slice(), [first, second, third]
            if is_copy(first, 1) && is_move(second, 3, &[Projection::Deref]) && is_number(third, 7)),
        _ => false,
    }
}

fn is_creation(statement: &Statement) -> bool {
    match assigned(statement, 4, &[]) {
        Some(Rvalue::Aggregate(made)) => {
            let made = made.get();
            is_instance(&made.instance, b"Pair", &[Region::Variable(1023), B])
                && matches!(made.operands.as_slice(), [first, second]
                    if is_move(first, 1, &[]) && is_number(second, 5))
        }
        _ => false,
    }
}

fn is_greatest_number(statement: &Statement) -> bool {
    matches!(assigned(statement, 1, &[]), Some(Rvalue::Use(operand)) if is_number(operand, 4_294_967_295))
}

fn is_drop_of_a_field(statement: &Statement) -> bool {
    matches!(statement, Statement::Drop(place) if is_place(place, 4, &[Projection::Field(0)]))
}

fn are_the_statements(statements: &[Statement]) -> bool {
    let behind = [Projection::Deref, Projection::Deref, Projection::Field(4)];
    match statements {
        [first, second, third, fourth, fifth, sixth, seventh, eighth] => {
            is_borrow(first, mutable(Region::Variable(8)), 2, &behind)
                && is_borrow(second, shared(A), 1, &[])
                && is_calculation(third)
                && is_creation(fourth)
                && is_greatest_number(fifth)
                && matches!(sixth, Statement::Dead(3))
                && is_drop_of_a_field(seventh)
                && matches!(eighth, Statement::Nop)
        }
        _ => false,
    }
}

fn is_condition(condition: &Condition) -> bool {
    is_copy(&condition.operand, 1) && condition.then == 1 && condition.otherwise == 2
}

fn is_call(terminator: &Terminator) -> bool {
    match terminator {
        Terminator::Call(call) => {
            let call = call.get();
            is_place(&call.destination, 4, &[Projection::Field(1)])
                && is_instance(&call.function, b"make", &[Region::Variable(2), B])
                && matches!(call.operands.as_slice(), [operand] if is_copy(operand, 2))
                && call.target == 3
        }
        _ => false,
    }
}

fn are_the_blocks(blocks: &[Block]) -> bool {
    match blocks {
        [first, second, third, fourth, fifth] => {
            are_the_statements(first.statements.as_slice())
                && matches!(&first.terminator, Terminator::If(condition) if is_condition(condition))
                && is_call(&second.terminator)
                && matches!(third.terminator, Terminator::Goto(4))
                && matches!(fourth.terminator, Terminator::Return)
                && matches!(fifth.terminator, Terminator::Stop)
        }
        _ => false,
    }
}

fn is_clause(clause: &Outlives, longer: u8, shorter: u8) -> bool {
    clause.longer == longer && clause.shorter == shorter
}

fn is_the_signature(signature: &Signature) -> bool {
    are_a_and_b(signature.regions.as_slice())
        && matches!(signature.clauses.as_slice(), [first, second]
            if is_clause(first, 1, 2) && is_clause(second, 2, 0))
        && matches!(signature.parameters.as_slice(), [first, second]
            if is_int(first, &[]) && is_struct(second, &[mutable(A), shared(STATIC)], b"Pair", &[B, A]))
        && is_struct(&signature.result, &[shared(B)], b"Leaf", &[])
}

fn are_the_lets(lets: &[Ty]) -> bool {
    matches!(lets, [first, second]
        if is_int(first, &[shared(Region::Variable(7))])
            && is_struct(second, &[], b"Pair", &[Region::Variable(1), STATIC]))
}

fn is_the_body(body: &Body) -> bool {
    body.header.kind == UnitKind::Function
        && body.header.captures.is_empty()
        && is_the_signature(&body.header.signature)
        && are_the_lets(body.lets.as_slice())
        && are_the_blocks(body.blocks.as_slice())
}

fn is_header_of_a_closure(header: &Header) -> bool {
    let signature = &header.signature;
    header.kind == UnitKind::Closure
        && are_a_and_b(signature.regions.as_slice())
        && matches!(signature.clauses.as_slice(), [clause] if is_clause(clause, 2, 1))
        && matches!(header.captures.as_slice(), [first, second]
            if is_int(first, &[shared(A)]) && is_struct(second, &[], b"Leaf", &[]))
        && matches!(signature.parameters.as_slice(), [only] if is_int(only, &[mutable(B)]))
        && is_int(&signature.result, &[])
}

fn are_closures(lets: &[Ty]) -> bool {
    matches!(lets, [first, second]
        if is_whole_closure(first, 63, &[Region::Variable(3), A]) && is_whole_closure(second, 0, &[]))
}

fn is_first_closure_made(statement: &Statement) -> bool {
    match assigned(statement, 4, &[]) {
        Some(Rvalue::Closure(made)) => {
            let made = made.get();
            is_closure(&made.closure, 63, &[Region::Variable(3), A])
                && matches!(made.operands.as_slice(), [first, second, third]
                    if is_copy(first, 1) && is_move(second, 2, &[Projection::Field(0)]) && is_number(third, 5))
        }
        _ => false,
    }
}

fn is_second_closure_made(statement: &Statement) -> bool {
    match assigned(statement, 5, &[]) {
        Some(Rvalue::Closure(made)) => {
            let made = made.get();
            is_closure(&made.closure, 7, &[]) && made.operands.as_slice().is_empty()
        }
        _ => false,
    }
}

fn is_invocation(terminator: &Terminator) -> bool {
    let regions = [B, Region::Variable(9)];
    match terminator {
        Terminator::Invoke(invocation) => {
            let invocation = invocation.get();
            is_place(&invocation.destination, 4, &[Projection::Field(1)])
                && is_place(&invocation.closure, 5, &[Projection::Deref])
                && invocation.regions.as_slice() == regions.as_slice()
                && matches!(invocation.operands.as_slice(), [first, second]
                    if is_copy(first, 3) && is_number(second, 8))
                && invocation.target == 1
        }
        _ => false,
    }
}

fn are_the_blocks_of_a_closure(blocks: &[Block]) -> bool {
    match blocks {
        [first, second] => {
            matches!(first.statements.as_slice(), [one, two]
                if is_first_closure_made(one) && is_second_closure_made(two))
                && is_invocation(&first.terminator)
                && matches!(second.terminator, Terminator::Return)
        }
        _ => false,
    }
}

fn is_body_of_a_closure(body: &Body) -> bool {
    is_header_of_a_closure(&body.header)
        && are_closures(body.lets.as_slice())
        && are_the_blocks_of_a_closure(body.blocks.as_slice())
}

fn is_leaf(declaration: &StructDeclaration) -> bool {
    declaration.name.bytes.as_slice() == b"Leaf".as_slice()
        && declaration.regions.as_slice().is_empty()
        && declaration.variances.as_slice().is_empty()
        && !declaration.has_drop
        && declaration.fields.as_slice().is_empty()
}

fn is_list(declaration: &StructDeclaration) -> bool {
    declaration.name.bytes.as_slice() == b"List".as_slice()
        && are_a_and_b(declaration.regions.as_slice())
        && matches!(
            declaration.variances.as_slice(),
            [Variance::Covariant, Variance::Invariant]
        )
        && declaration.has_drop
        && matches!(declaration.fields.as_slice(), [first, second]
            if is_int(first, &[shared(A)]) && is_struct(second, &[], b"List", &[B, STATIC]))
}

fn is_signature_of_f(signature: &Signature) -> bool {
    are_a_and_b(signature.regions.as_slice())
        && matches!(signature.clauses.as_slice(), [clause] if is_clause(clause, 2, 1))
        && matches!(signature.parameters.as_slice(), [first, second]
            if is_int(first, &[mutable(A)]) && is_int(second, &[]))
        && is_struct(&signature.result, &[], b"Leaf", &[])
}

fn are_the_declarations(declarations: &[Declaration]) -> bool {
    match declarations {
        [
            Declaration::Struct(first),
            Declaration::Struct(second),
            Declaration::Extern(third),
        ] => {
            is_leaf(first)
                && is_list(second)
                && third.name.bytes.as_slice() == b"f".as_slice()
                && is_signature_of_f(&third.signature)
        }
        _ => false,
    }
}

/// Returns whether the text is read as its unit.
fn reads_unit(alloc: Global) -> Result<bool, ReadFault> {
    let unit = read_unit(alloc, UNIT)?;
    Ok(is_the_body(unit.body()))
}

/// Returns whether the text is read as its closure.
fn reads_closure(alloc: Global) -> Result<bool, ReadFault> {
    let unit = read_unit(alloc, CLOSURE)?;
    Ok(is_body_of_a_closure(unit.body()))
}

/// Returns whether the text is read as its declarations.
fn reads_types(alloc: Global) -> Result<bool, ReadFault> {
    let types = read_types(alloc, TYPES)?;
    Ok(are_the_declarations(types.declarations()))
}

/// Reads again if the first reading was refused, as when it ran out of memory.
#[test]
fn a_text_is_read_as_its_unit(rt: HostRuntime) -> Result<(), Fail> {
    let reads = match reads_unit(rt.alloc()) {
        Ok(reads) => reads,
        Err(_) => reads_unit(rt.alloc())?,
    };
    assert!(rt; reads);
    Ok(())
}

/// Reads again if the first reading was refused, as when it ran out of memory.
#[test]
fn a_text_is_read_as_its_closure(rt: HostRuntime) -> Result<(), Fail> {
    let reads = match reads_closure(rt.alloc()) {
        Ok(reads) => reads,
        Err(_) => reads_closure(rt.alloc())?,
    };
    assert!(rt; reads);
    Ok(())
}

/// Reads again if the first reading was refused, as when it ran out of memory.
#[test]
fn a_text_is_read_as_its_declarations(rt: HostRuntime) -> Result<(), Fail> {
    let reads = match reads_types(rt.alloc()) {
        Ok(reads) => reads,
        Err(_) => reads_types(rt.alloc())?,
    };
    assert!(rt; reads);
    Ok(())
}

/// Returns a body with this header, without `let` locals and blocks.
fn without_blocks(alloc: Global, header: Header) -> Body {
    Body {
        header,
        lets: Sequence::new(alloc),
        blocks: Sequence::new(alloc),
    }
}

#[test]
fn a_body_without_blocks_is_no_unit(rt: HostRuntime) -> Result<(), Fail> {
    let unit = read_unit(rt.alloc(), b"fn()->int{bb0{stop;}}")?;
    let body = without_blocks(rt.alloc(), unit.body().header.clone()?);
    assert!(rt; unit_of(body).is_none());
    Ok(())
}
