//! In words: which typing rule a body breaks, and of which part of which point; and what demands each pair of regions.

use bc_breaches::{IllBreach, PointBreach, TypedPart, TypingRule};
use bc_reasons::{Demand, Demands, LinkReason, Rule};
use std::io;
use std::io::Write;

fn rule_word(rule: TypingRule) -> &'static str {
    match rule {
        TypingRule::HasType => "type",
        TypingRule::IsBlock => "block",
        TypingRule::IsMutable => "mutability",
        TypingRule::HasNoDereference => "dereference",
        TypingRule::IsCopyable => "copy",
        TypingRule::HasShape => "shape",
        TypingRule::IsNoClosure => "borrow of a closure",
        TypingRule::IsClosure => "closure",
        TypingRule::IsDeclared => "declaration",
        TypingRule::HasRegionCount => "number of regions",
        TypingRule::HasOperandCount => "number of operands",
        TypingRule::IsInt => "int",
    }
}

fn show_part<W: Write>(part: TypedPart, out: &mut W) -> io::Result<()> {
    match part {
        TypedPart::Target => write!(out, "target"),
        TypedPart::Operand(number) => write!(out, "operand {number}"),
        TypedPart::Borrowed => write!(out, "borrowed"),
        TypedPart::Dropped => write!(out, "dropped"),
        TypedPart::Invoked => write!(out, "invoked"),
        TypedPart::Named => write!(out, "named"),
        TypedPart::Label => write!(out, "label"),
    }
}

fn show_point_breach<W: Write>(breach: PointBreach, out: &mut W) -> io::Result<()> {
    show_part(breach.part, out)?;
    let rule = rule_word(breach.rule);
    writeln!(out, ": {rule}")
}

/// Writes where a body breaks a rule, which part of the point does, and which rule.
pub(crate) fn show_breach<W: Write>(breach: IllBreach, out: &mut W) -> io::Result<()> {
    match breach {
        IllBreach::Struct { local } => writeln!(out, "ill at header: struct of _{local}"),
        IllBreach::Closure { local } => writeln!(out, "ill at header: closure of _{local}"),
        IllBreach::Point { point, breach } => {
            write!(out, "ill at {point}: ")?;
            show_point_breach(breach, out)
        }
    }
}

fn show_rule<W: Write>(rule: Rule, out: &mut W) -> io::Result<()> {
    match rule {
        Rule::Assignment => write!(out, "assignment"),
        Rule::Borrow => write!(out, "borrow"),
        Rule::Reborrow => write!(out, "reborrow"),
        Rule::Argument(number) => write!(out, "argument {number}"),
        Rule::Result => write!(out, "result"),
        Rule::Clause => write!(out, "clause"),
        Rule::WellFormed => write!(out, "well-formed"),
        Rule::Creation => write!(out, "creation"),
        Rule::Invocation => write!(out, "invocation"),
    }
}

fn show_reason<W: Write>(reason: LinkReason, out: &mut W) -> io::Result<()> {
    match reason {
        LinkReason::Point { point, rule } => {
            write!(out, "{point} ")?;
            show_rule(rule, out)
        }
        LinkReason::Local { local } => write!(out, "type of _{local}"),
    }
}

fn show_demand<W: Write>(demand: &Demand, out: &mut W) -> io::Result<()> {
    let pair = demand.constraint;
    write!(out, ", {}:{} ", pair.longer, pair.shorter)?;
    show_reason(demand.reason, out)
}

/// Writes each demanded pair of regions with what demands it.
pub(crate) fn show_reasons<W: Write>(demands: &Demands, out: &mut W) -> io::Result<()> {
    write!(out, "reasons")?;
    for demand in demands.as_slice() {
        show_demand(demand, out)?;
    }
    writeln!(out)
}
