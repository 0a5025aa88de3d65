//! The closures of a body, by their numbers.
ghost use Rattle.std.specs.Prelude.{◌≡◌, ◌<◌, true, false, ◌∷◌, ◌++◌, [], nat_le, get_or, if◌then◌else◌, IfOk, OnOk};
ghost use Rattle.std.specs.List.{list_all};
ghost use Rattle.bc_syntax.specs.Children.{AreMarked, children_of, closures_of, closures_of_base, closures_of_types, closures_of_rvalue, closures_of_statement, closures_of_statements, closures_of_blocks, is_among};

use crate::syntax::{Base, Block, Body, Rvalue, Statement, Ty};
use std::alloc::{AllocError, Global};

/// The count of closure numbers, which are 0 to 63.
const CLOSURES: usize = 64;

/// Marks a closure number. Numbers from 64 on have no mark.
fn mark(marks: &mut [bool; CLOSURES], number: u8)
    ensures { AreMarked marks.old (number ∷ []) marks.new }
{
    if usize::from(number) < CLOSURES {
        marks[usize::from(number)] = true;
    }
}

/// Marks the closure that a base is, if it is one.
fn mark_base(marks: &mut [bool; CLOSURES], base: &Base)
    ensures { AreMarked marks.old (closures_of_base base.now) marks.new }
{
    match base {
        Base::Int | Base::Struct(_) => {}
        Base::Closure(closure) => mark(marks, closure.number),
    }
}

fn mark_types(marks: &mut [bool; CLOSURES], types: &[Ty])
    ensures { AreMarked marks.old (closures_of_types types.now) marks.new }
{
    for ty in types {
        mark_base(marks, &ty.base);
    }
}

/// Marks the closure that an rvalue creates, if it creates one.
fn mark_rvalue(marks: &mut [bool; CLOSURES], rvalue: &Rvalue)
    ensures { AreMarked marks.old (closures_of_rvalue rvalue.now) marks.new }
{
    match rvalue {
        Rvalue::Use(_) | Rvalue::Borrow(_) | Rvalue::Aggregate(_) | Rvalue::Calc(_) => {}
        Rvalue::Closure(creation) => mark(marks, creation.get().closure.number),
    }
}

fn mark_statement(marks: &mut [bool; CLOSURES], statement: &Statement)
    ensures { AreMarked marks.old (closures_of_statement statement.now) marks.new }
{
    match statement {
        Statement::Assign(assignment) => mark_rvalue(marks, &assignment.value),
        Statement::Dead(_) | Statement::Drop(_) | Statement::Nop => {}
    }
}

fn mark_statements(marks: &mut [bool; CLOSURES], statements: &[Statement])
    ensures { AreMarked marks.old (closures_of_statements statements.now) marks.new }
{
    for statement in statements {
        mark_statement(marks, statement);
    }
}

fn mark_blocks(marks: &mut [bool; CLOSURES], blocks: &[Block])
    ensures { AreMarked marks.old (closures_of_blocks blocks.now) marks.new }
{
    for block in blocks {
        mark_statements(marks, block.statements.as_slice());
    }
}

/// Appends a number if it is marked.
fn push_marked(children: &mut Vec<u8>, marked: bool, number: u8) -> Result<(), AllocError>
    ensures { OnOk result (children.new.items ≡ children.old.items ++ (if marked then number ∷ [] else [])) }
{
    if marked {
        children.push(number)?;
    }
    Ok(())
}

impl Body {
    /// Returns for each number whether the body names this closure.
    fn marked_closures(&self) -> [bool; CLOSURES]
        ensures { (number : _) → number < 64 → get_or result number false ≡ is_among (closures_of self.now) number }
    {
        let mut marks = [false; CLOSURES];
        mark_types(&mut marks, self.lets.as_slice());
        mark_blocks(&mut marks, self.blocks.as_slice());
        marks
    }

    /// Returns the children of the body: the numbers of the closures in the types of its `let` locals and of those that it creates, each
    /// once, ascending, 0 to 63. It allocates nothing if there are none.
    pub fn children(&self, alloc: Global) -> Result<Vec<u8>, AllocError>
        ensures value { IfOk result (λ children. children.items ≡ children_of self.now) }
        ensures numbers { IfOk result (λ children. list_all (λ number. nat_le number 63) children.items ≡ true) }
    {
        let marks = self.marked_closures();
        let mut children = Vec::new(alloc);
        for number in 0..64u8 {
            push_marked(&mut children, marks[usize::from(number)], number)?;
        }
        Ok(children)
    }
}
