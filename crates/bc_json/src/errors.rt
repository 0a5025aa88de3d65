//! The JSON values of errors.
ghost use Rattle.std.specs.Prelude.{map, IfOk};
ghost use Rattle.bc_judge.specs.declared.error.BorrowError.TheVariants.{Conflict, Lifetime};
ghost use Rattle.bc_json.specs.Json.{region_json, chain_json, error_json};
ghost use Rattle.bc_json.specs.Texts.{HasText, array_text};

use crate::members::{put_number, put_point, put_string};
use bc_judge::{BorrowError, PrintedRegion};
use bc_mir::Point;
use bc_syntax::Region;
use serde_json::{Map, Value, put};
use std::alloc::{AllocError, Global};

/// Returns the value of a region: a string such as `"'?1"`.
fn region_value(alloc: Global, region: Region) -> Result<Value, AllocError>
    ensures { IfOk result (λ value. HasText value (region_json region)) }
{
    let region = PrintedRegion { region };
    let word = format!(in alloc; "{region}")?;
    Ok(Value::String(word))
}

/// Returns the array of the regions of a chain, in order.
fn chain_value(alloc: Global, chain: &[Region]) -> Result<Value, AllocError>
    ensures { IfOk result (λ value. HasText value (chain_json chain.now)) }
{
    let mut words = Vec::new(alloc);
    for region in chain {
        words.push(region_value(alloc, *region)?)?;
    }
    Ok(Value::Array(words))
}

/// Returns the object of a conflict.
fn conflict_value(
    alloc: Global,
    at: Point,
    access: usize,
    loan: Point,
    chain: &[Region],
) -> Result<Value, AllocError>
    ensures { IfOk result (λ value. HasText value (error_json (Conflict at access loan chain.now))) }
{
    let chain = chain_value(alloc, chain)?;
    let mut members = Map::new(alloc);
    put(&mut members, alloc, "chain", chain)?;
    put_number(&mut members, alloc, "access", access)?;
    put_point(&mut members, alloc, "at", at)?;
    put_point(&mut members, alloc, "loan", loan)?;
    put_string(&mut members, alloc, "kind", "conflict")?;
    Ok(Value::Object(members))
}

/// Returns the object of a lifetime error.
fn lifetime_value(
    alloc: Global,
    longer: u8,
    shorter: u8,
    chain: &[Region],
) -> Result<Value, AllocError>
    ensures { IfOk result (λ value. HasText value (error_json (Lifetime longer shorter chain.now))) }
{
    let chain = chain_value(alloc, chain)?;
    let mut members = Map::new(alloc);
    put(&mut members, alloc, "chain", chain)?;
    put_string(&mut members, alloc, "kind", "lifetime")?;
    put_number(&mut members, alloc, "longer", usize::from(longer))?;
    put_number(&mut members, alloc, "shorter", usize::from(shorter))?;
    Ok(Value::Object(members))
}

/// Returns the object of an error.
fn error_value(alloc: Global, error: &BorrowError) -> Result<Value, AllocError>
    ensures { IfOk result (λ value. HasText value (error_json error.now)) }
{
    match error {
        BorrowError::Conflict {
            at,
            access,
            loan,
            chain,
        } => conflict_value(alloc, *at, *access, *loan, chain.as_slice()),
        BorrowError::Lifetime {
            longer,
            shorter,
            chain,
        } => lifetime_value(alloc, *longer, *shorter, chain.as_slice()),
    }
}

/// Returns the array of errors, in order.
pub(crate) fn errors_value(alloc: Global, errors: &[BorrowError]) -> Result<Value, AllocError>
    ensures { IfOk result (λ value. HasText value (array_text (map error_json errors.now))) }
{
    let mut values = Vec::new(alloc);
    for error in errors {
        values.push(error_value(alloc, error)?)?;
    }
    Ok(Value::Array(values))
}
