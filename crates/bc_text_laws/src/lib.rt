//! Laws of the texts of units and declarations: what is printed is read again, and a refused text has a bad token.
#![tactic(auto)]

mod laws;

pub use laws::{
    printed_types_are_read, printed_units_are_read, refused_types_have_a_bad_token,
    refused_units_have_a_bad_token,
};
