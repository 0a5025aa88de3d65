//! The bodies that keep the typing rules over the headers of their children: `children.txt`, rows of declarations, a body `f` and its
//! children `f/K`, at most two, ascending.
//!
//! Below a row comes the place where the body first breaks a rule, with the part and the rule, or what its points demand of regions: pairs
//! of numbers, the longer region first, and then the same with what demands each pair.
ghost use Rattle.std.specs.Prelude.{◌≡◌, ⊤, map, MatchOption};
ghost use Rattle.bc_syntax.specs.Children.{children_of};

use crate::breaches::{show_breach, show_reasons};
use crate::rows::{headed, named};
use crate::steps::{body_of, declared, demands_of, facts_of, show_demands, show_points};
use bc_breaches::ill_breach;
use bc_live::live;
use bc_mir::{GoodTypes, IllFault, KidHeader, Typed, type_unit};
use bc_names::Name;
use bc_syntax::{Unit, UnitKind};
use bc_text::read_unit;
use std::alloc::Global;
use std::io::{ErrorKind, Write};
use std::sync::Arc;
use std::{fs, io};

/// A child of a row: its number and its unit.
#[derive(Drop)]
struct Child {
    number: u8,
    unit: Unit,
}

/// Returns the number of the child that a header puts, if it puts one.
fn child_number(header: &str) -> Option<u8> {
    let name = Name::read(header.strip_prefix("put ")?.as_bytes())?;
    match name.segments() {
        [number] => Some(*number),
        _ => None,
    }
}

/// Returns the children of a row. Returns `InvalidData` if the text of one cannot be read.
fn children_in(alloc: Global, sections: &str) -> io::Result<Vec<Child>> {
    let mut children = Vec::new(alloc);
    for section in sections.split('@').skip(1) {
        let (header, text) = headed(section);
        if let Some(number) = child_number(header) {
            let Ok(unit) = read_unit(alloc, text) else {
                return Err(ErrorKind::InvalidData.into());
            };
            children.push(Child { number, unit })?;
        }
    }
    Ok(children)
}

/// Returns what typing has to know about a child, or `None` if it is no closure or its number is too great.
fn kid_of(child: &Child) -> Option<KidHeader<'_>>
    ensures { MatchOption result ⊤ (λ kid. kid.number ≡ child.now.number) }
{
    if child.number > 63 {
        return None;
    }
    match child.unit.body().header.kind {
        UnitKind::Closure => Some(KidHeader::of(child.number, &child.unit)),
        UnitKind::Function => None,
    }
}

fn show_typed<W: Write>(alloc: Global, typed: &Typed, out: &mut W) -> io::Result<()> {
    show_points(alloc, typed, out)?;
    let live = live(alloc, typed)?;
    let facts = facts_of(alloc, typed, &live)?;
    show_demands(&facts, out)?;
    let demands = demands_of(alloc, typed)?;
    show_reasons(&demands, out)
}

/// Writes which rule a body breaks. Returns `InvalidData` if it breaks none.
fn show_ill<W: Write>(
    alloc: Global,
    types: &Arc<GoodTypes, Global>,
    unit: &Unit,
    kids: &[KidHeader<'_>],
    out: &mut W,
) -> io::Result<()>
    requires { map (λ kid. kid.number) kids.now ≡ children_of unit.now }
{
    match ill_breach(alloc, types, unit, kids)? {
        Some(breach) => show_breach(breach, out),
        None => Err(ErrorKind::InvalidData.into()),
    }
}

/// Writes what a body over its children demands, or where it breaks a rule.
fn show_over<W: Write>(
    alloc: Global,
    types: &Arc<GoodTypes, Global>,
    unit: &Unit,
    kids: &[KidHeader<'_>],
    out: &mut W,
) -> io::Result<()>
    requires { map (λ kid. kid.number) kids.now ≡ children_of unit.now }
{
    match type_unit(alloc, types, unit, kids) {
        Ok(typed) => show_typed(alloc, &typed, out),
        Err(IllFault::Ill(_)) => show_ill(alloc, types, unit, kids, out),
        Err(IllFault::NoMemory) => Err(ErrorKind::OutOfMemory.into()),
    }
}

/// Writes a body with one child. Returns `InvalidData` if it has others.
fn show_with_one<W: Write>(
    alloc: Global,
    types: &Arc<GoodTypes, Global>,
    unit: &Unit,
    child: &Child,
    out: &mut W,
) -> io::Result<()> {
    let wanted = unit.body().children(alloc)?;
    let Some(kid) = kid_of(child) else {
        return Err(ErrorKind::InvalidData.into());
    };
    match wanted.as_slice() {
        [number] => {
            if *number != child.number {
                return Err(ErrorKind::InvalidData.into());
            }
            show_over(alloc, types, unit, &[kid], out)
        }
        _ => Err(ErrorKind::InvalidData.into()),
    }
}

/// Writes a body with two children. Returns `InvalidData` if it has others.
fn show_with_two<W: Write>(
    alloc: Global,
    types: &Arc<GoodTypes, Global>,
    unit: &Unit,
    first: &Child,
    second: &Child,
    out: &mut W,
) -> io::Result<()> {
    let wanted = unit.body().children(alloc)?;
    let Some(one) = kid_of(first) else {
        return Err(ErrorKind::InvalidData.into());
    };
    let Some(other) = kid_of(second) else {
        return Err(ErrorKind::InvalidData.into());
    };
    match wanted.as_slice() {
        [least, greatest] => {
            if *least != first.number || *greatest != second.number {
                return Err(ErrorKind::InvalidData.into());
            }
            show_over(alloc, types, unit, &[one, other], out)
        }
        _ => Err(ErrorKind::InvalidData.into()),
    }
}

/// Writes a body with these children. Returns `InvalidData` if they are not its own.
fn show_with<W: Write>(
    alloc: Global,
    types: &Arc<GoodTypes, Global>,
    unit: &Unit,
    children: &[Child],
    out: &mut W,
) -> io::Result<()> {
    match children {
        [] => {
            let wanted = unit.body().children(alloc)?;
            match wanted.as_slice() {
                [] => show_over(alloc, types, unit, &[], out),
                [_, ..] => Err(ErrorKind::InvalidData.into()),
            }
        }
        [child] => show_with_one(alloc, types, unit, child, out),
        [first, second] => show_with_two(alloc, types, unit, first, second, out),
        [_, _, _, ..] => Err(ErrorKind::InvalidData.into()),
    }
}

/// Writes a body over the children of a row. Returns `InvalidData` if they are not its own.
fn show_unit<W: Write>(
    alloc: Global,
    types: &Arc<GoodTypes, Global>,
    unit: &Unit,
    sections: &str,
    out: &mut W,
) -> io::Result<()> {
    let children = children_in(alloc, sections)?;
    show_with(alloc, types, unit, &children, out)
}

/// Writes the body of a row over its children.
fn show_body<W: Write>(
    alloc: Global,
    types: &Arc<GoodTypes, Global>,
    sections: &str,
    out: &mut W,
) -> io::Result<()> {
    let unit = body_of(alloc, sections)?;
    show_unit(alloc, types, &unit, sections, out)
}

/// Writes a row: its name, and the body over its declarations and children.
fn show_row<W: Write>(alloc: Global, row: &str, out: &mut W) -> io::Result<()> {
    let (name, sections) = named(row);
    writeln!(out, "#{name}")?;
    let types = declared(alloc, sections)?;
    show_body(alloc, &types, sections, out)
}

/// Writes, for each row of `children.txt`, what its body demands over its children, or where it breaks a rule. Fails if the file cannot be
/// read or `out` cannot be written, if the children are not those of the body, or if memory runs out.
pub fn show_children<W: Write>(rt: &HostRuntime, out: &mut W) -> io::Result<()> {
    let text = fs::read_to_string(rt, "children.txt")?;
    for row in text.split('#').skip(1) {
        show_row(rt.alloc(), row, out)?;
    }
    Ok(())
}
