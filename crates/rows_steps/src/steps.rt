//! What each step of the analysis finds in bodies: `steps.txt`, rows of declarations and a body.
//!
//! Below a row come the points with their accesses, the edges between points, and then, by number: the points before which a local is live,
//! the demands between regions (the longer one first), the elements of a region's value, the loans with the point that makes each and its
//! region, the loans in scope before a point, the regions that a universal one is known to outlive, and the errors, each with its chain.
ghost use Rattle.std.specs.Prelude.{◌≡◌, [], map, IfOk};
ghost use Rattle.bc_bodies.specs.declared.children.Child.{Child as AChild};
ghost use Rattle.bc_solve.specs.Values.{AreValues};
ghost use Rattle.bc_loans.specs.Scope.{AreScopes};

use crate::rows::{named, text_under};
use bc_analyses::{find_plain_values, find_scopes};
use bc_cons::{Facts, Requirements, constraints};
use bc_judge::{BorrowError, PrintedChain, judge, known_relations};
use bc_live::{LiveSets, live};
use bc_loans::{Scopes, loans};
use bc_mir::{Child, GoodTypes, Step, Typed};
use bc_points::{Access, AccessKind, Depth, Loan, accesses, region_number};
use bc_reasons::Demands;
use bc_solve::Values;
use bc_syntax::{Sequence, Unit};
use bc_text::read_unit;
use std::alloc::{AllocError, Global};
use std::io::{ErrorKind, Write};
use std::sync::Arc;
use std::{fs, io};
use test_fixtures::{good_types, typed_alone};

/// Writes the numbers below `count` that something has, such as `live 2: 0 4`.
fn show_numbers<W: Write, F: Fn(usize) -> bool>(
    out: &mut W,
    what: &str,
    of: usize,
    count: usize,
    has: F,
) -> io::Result<()>
    requires { F.IsAlwaysCallable has }
{
    write!(out, "{what} {of}:")?;
    for number in 0..count {
        if has(number) {
            write!(out, " {number}")?;
        }
    }
    writeln!(out)
}

pub(crate) fn show_access<W: Write>(access: &Access<'_>, out: &mut W) -> io::Result<()> {
    let depth = match access.depth {
        Depth::Shallow => "shallow",
        Depth::Deep => "deep",
    };
    let kind = match access.kind {
        AccessKind::Read => "read",
        AccessKind::Write => "write",
    };
    write!(out, ", {depth} {kind} of _{}", access.place.local())
}

fn show_point<W: Write>(
    alloc: Global,
    typed: &Typed,
    number: usize,
    step: &Step,
    out: &mut W,
) -> io::Result<()> {
    write!(out, "point {number} {}", step.point)?;
    for access in &accesses(alloc, typed, &step.instruction)? {
        show_access(access, out)?;
    }
    writeln!(out)
}

pub(crate) fn show_points<W: Write>(alloc: Global, typed: &Typed, out: &mut W) -> io::Result<()> {
    for (number, step) in typed.steps().iter().enumerate() {
        show_point(alloc, typed, number, step, out)?;
    }
    write!(out, "edges:")?;
    for edge in &typed.edges(alloc)? {
        write!(out, " {}-{}", edge.from, edge.to)?;
    }
    writeln!(out)
}

fn show_live<W: Write>(typed: &Typed, live: &LiveSets, out: &mut W) -> io::Result<()> {
    let points = typed.steps().len();
    for local in 0..typed.locals().len() {
        show_numbers(out, "live", local, points, |point| live.live(local, point))?;
    }
    Ok(())
}

pub(crate) fn show_demands<W: Write>(facts: &Facts, out: &mut W) -> io::Result<()> {
    write!(out, "demands:")?;
    for pair in facts.pairs() {
        write!(out, " {}:{}", pair.longer, pair.shorter)?;
    }
    writeln!(out)
}

fn show_values<W: Write>(values: &Values, elements: usize, out: &mut W) -> io::Result<()> {
    for region in 0..values.regions() {
        show_numbers(out, "region", region, elements, |element| {
            values.contains(region, element)
        })?;
    }
    Ok(())
}

fn show_loan<W: Write>(
    typed: &Typed,
    number: usize,
    maker: usize,
    loan: &Loan<'_>,
    out: &mut W,
) -> io::Result<()> {
    let region = region_number(typed.universals(), loan.region);
    let local = loan.path.local();
    writeln!(
        out,
        "loan {number}: of _{local} at {maker} in region {region}"
    )
}

/// Writes the loans, and returns their number.
fn show_loans<W: Write>(alloc: Global, typed: &Typed, out: &mut W) -> io::Result<usize> {
    let made = loans(alloc, typed)?;
    for (number, (maker, loan)) in made.iter().enumerate() {
        show_loan(typed, number, *maker, loan, out)?;
    }
    Ok(made.len())
}

fn show_scopes<W: Write>(
    typed: &Typed,
    scopes: &Scopes,
    loans: usize,
    out: &mut W,
) -> io::Result<()> {
    for point in 0..typed.steps().len() {
        show_numbers(
            out,
            "scope",
            point,
            loans,
            |loan| scopes.on_entry(point, loan),
        )?;
    }
    Ok(())
}

fn show_known<W: Write>(alloc: Global, typed: &Typed, out: &mut W) -> io::Result<()> {
    let universals = usize::from(typed.universals());
    let known = known_relations(alloc, typed)?;
    for longer in 0..universals {
        show_numbers(out, "known", longer, universals, |shorter| {
            known.contains(longer, shorter)
        })?;
    }
    Ok(())
}

fn show_error<W: Write>(error: &BorrowError, out: &mut W) -> io::Result<()> {
    let chain = PrintedChain {
        regions: error.chain(),
    };
    writeln!(out, "{error}")?;
    writeln!(out, "{chain}")
}

fn show_errors<W: Write>(
    alloc: Global,
    typed: &Typed,
    facts: &Facts,
    values: &Values,
    scopes: &Scopes,
    out: &mut W,
) -> io::Result<()>
    requires values { AreValues facts.now values.now }
    requires scopes { AreScopes typed.now values.now scopes.now }
{
    let verdict = judge(alloc, typed, facts, values, scopes)?;
    for error in verdict.errors.as_slice() {
        show_error(error, out)?;
    }
    Ok(())
}

fn show_from_values<W: Write>(
    alloc: Global,
    typed: &Typed,
    facts: &Facts,
    values: &Values,
    out: &mut W,
) -> io::Result<()>
    requires { AreValues facts.now values.now }
{
    let loans = show_loans(alloc, typed, out)?;
    let scopes = find_scopes(alloc, typed, values)?;
    show_scopes(typed, &scopes, loans, out)?;
    show_known(alloc, typed, out)?;
    show_errors(alloc, typed, facts, values, &scopes, out)
}

fn show_from_facts<W: Write>(
    alloc: Global,
    typed: &Typed,
    facts: &Facts,
    out: &mut W,
) -> io::Result<()> {
    show_demands(facts, out)?;
    let values = find_plain_values(alloc, facts)?;
    show_values(&values, facts.elements(), out)?;
    show_from_values(alloc, typed, facts, &values, out)
}

fn no_requirements(alloc: Global, child: &Child) -> (u8, Requirements)
    ensures { result ≡ (child.now.number, record { pairs = [] }) }
{
    let pairs = Sequence::new(alloc);
    (child.number, Requirements { pairs })
}

/// Returns empty requirements for each child.
fn without_requirements(
    alloc: Global,
    children: &[Child],
) -> Result<Vec<(u8, Requirements)>, AllocError>
    ensures { IfOk result (λ kids. kids.items ≡ map (λ (child : AChild). (child.number, record { pairs = [] })) children.now) }
{
    children
        .iter()
        .map(|child| no_requirements(alloc, child))
        .collect(alloc)
}

/// Returns the facts from which the values are found, if no child requires anything.
pub(crate) fn facts_of(alloc: Global, typed: &Typed, live: &LiveSets) -> Result<Facts, AllocError> {
    let kids = without_requirements(alloc, typed.children())?;
    constraints(alloc, typed, live, &kids)
}

/// Returns the demands of a body, if no child requires anything.
pub(crate) fn demands_of(alloc: Global, typed: &Typed) -> Result<Demands, AllocError> {
    let kids = without_requirements(alloc, typed.children())?;
    Demands::of(alloc, typed, &kids)
}

fn show_body<W: Write>(alloc: Global, typed: &Typed, out: &mut W) -> io::Result<()> {
    show_points(alloc, typed, out)?;
    let live = live(alloc, typed)?;
    show_live(typed, &live, out)?;
    let facts = facts_of(alloc, typed, &live)?;
    show_from_facts(alloc, typed, &facts, out)
}

/// Returns the declarations of a row. Returns `InvalidData` if they cannot be read or one is bad.
pub(crate) fn declared(alloc: Global, sections: &str) -> io::Result<Arc<GoodTypes, Global>> {
    match good_types(alloc, text_under(sections, "types")) {
        Ok(types) => Ok(types),
        Err(_) => Err(ErrorKind::InvalidData.into()),
    }
}

/// Returns the body of a row. Returns `InvalidData` if it cannot be read.
pub(crate) fn body_of(alloc: Global, sections: &str) -> io::Result<Unit> {
    match read_unit(alloc, text_under(sections, "put f")) {
        Ok(unit) => Ok(unit),
        Err(_) => Err(ErrorKind::InvalidData.into()),
    }
}

/// Returns a body over declarations, typed. Returns `InvalidData` if it has children or breaks a typing rule.
fn typed_unit(alloc: Global, types: &Arc<GoodTypes, Global>, unit: &Unit) -> io::Result<Typed> {
    match typed_alone(alloc, types, unit) {
        Ok(typed) => Ok(typed),
        Err(_) => Err(ErrorKind::InvalidData.into()),
    }
}

/// Returns the body of a row over declarations, typed. Returns `InvalidData` as `body_of` and `typed_unit` do.
fn typed_body(alloc: Global, types: &Arc<GoodTypes, Global>, sections: &str) -> io::Result<Typed> {
    let unit = body_of(alloc, sections)?;
    typed_unit(alloc, types, &unit)
}

/// Returns the body of a row over its declarations, typed. Returns `InvalidData` as `declared` and `typed_body` do.
pub(crate) fn typed(alloc: Global, sections: &str) -> io::Result<Typed> {
    let types = declared(alloc, sections)?;
    typed_body(alloc, &types, sections)
}

fn show_row<W: Write>(alloc: Global, row: &str, out: &mut W) -> io::Result<()> {
    let (name, sections) = named(row);
    writeln!(out, "#{name}")?;
    let typed = typed(alloc, sections)?;
    show_body(alloc, &typed, out)
}

/// Writes what each step of the analysis finds in the body of each row of `steps.txt`. Fails if the file cannot be read or `out` cannot be
/// written, if a row's body breaks a typing rule, or if memory runs out.
pub fn show_steps<W: Write>(rt: &HostRuntime, out: &mut W) -> io::Result<()> {
    let text = fs::read_to_string(rt, "steps.txt")?;
    for row in text.split('#').skip(1) {
        show_row(rt.alloc(), row, out)?;
    }
    Ok(())
}
