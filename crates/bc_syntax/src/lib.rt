//! Units and declarations as plain data, the words that name things, and keywords and signs.
#![tactic(auto)]

mod apart;
mod bytes;
mod closures;
mod declarations;
mod locals;
mod numbering;
mod projections;
mod region_names;
mod sequence;
mod symbol;
mod syntax;
mod unit;
mod words;

pub use apart::Apart;
pub use bytes::{behind, byte_at, from, is_run_byte, region_len, run, run_len};
pub use declarations::{Types, is_struct};
pub use numbering::Numbering;
pub use projections::Projections;
pub use region_names::is_new;
pub use sequence::{Sequence, ShortSequence};
pub use symbol::{Symbol, same};
pub use syntax::{
    Aggregate, Assignment, Base, Block, Body, Borrow, Call, ClosureInstance, Condition, Creation,
    Declaration, ExternDeclaration, Header, Instance, Invocation, ItemName, Mutability, Operand,
    Outlives, Place, Projection, Reference, Region, RegionName, Rvalue, Signature, Statement,
    StructDeclaration, Terminator, Ty, UnitKind, Variance,
};
pub use unit::Unit;
pub use words::{
    are_run_bytes, is_number, is_number_of, is_region_name, is_region_name_of, is_word,
};
