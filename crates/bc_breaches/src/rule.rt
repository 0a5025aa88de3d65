//! Typing rules, and the parts of a point that they are about.
ghost use Rattle.std.specs.Prelude.{◌≡◌};
ghost use Rattle.bc_breaches.specs.Typing.{unless as unless_it};

/// A part of a point that a typing rule is about.
///
/// `Target`: the place that an assignment, a call or an `invoke` writes, or the local of `dead`. `Operand`: an operand, by its number from
/// 0. `Borrowed`, `Dropped`, `Invoked`: the place that is borrowed, dropped or invoked. `Named`: the struct, function or closure that is
/// created or called. `Label`: a label.
#[derive(Clone, Copy)]
pub enum TypedPart {
    Target,
    Operand(usize),
    Borrowed,
    Dropped,
    Invoked,
    Named,
    Label,
}

/// What a typing rule asks of a part of a point.
///
/// `HasType`: the place has a type. `IsBlock`: the label is one of a block. `IsMutable`: no shared reference is dereferenced on the way to
/// the place. `HasNoDereference`: the place has no `.*`. `IsCopyable`: the type is `int` or a shared reference. `HasShape`: the operand has
/// the shape of its field, capture or parameter, or the target that of the value or result. `IsNoClosure` and `IsClosure`: the type is no
/// closure, or one. `IsDeclared`: the struct or function is declared, and the closure is a child. `HasRegionCount`, `HasOperandCount`: there
/// are as many regions or operands as it has. `IsInt`: the operand is an `int`. (rustc-dev-guide, "The MIR".)
#[derive(Clone, Copy)]
pub enum TypingRule {
    HasType,
    IsBlock,
    IsMutable,
    HasNoDereference,
    IsCopyable,
    HasShape,
    IsNoClosure,
    IsClosure,
    IsDeclared,
    HasRegionCount,
    HasOperandCount,
    IsInt,
}

/// A part of a point, and a typing rule that it breaks.
#[derive(Clone, Copy)]
pub struct PointBreach {
    pub part: TypedPart,
    pub rule: TypingRule,
}

/// Returns the breach of a rule by a part, unless the rule holds.
pub(crate) fn unless(holds: bool, part: TypedPart, rule: TypingRule) -> Option<PointBreach>
    ensures { result ≡ unless_it holds part rule }
{
    if holds {
        None
    } else {
        Some(PointBreach { part, rule })
    }
}
