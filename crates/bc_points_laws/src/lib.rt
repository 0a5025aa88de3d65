//! Laws of prefixes, of supporting prefixes and of the numbers of regions.
#![tactic(auto)]

mod laws;

pub use laws::{
    prefixes_chain, reborrows_list_taken_references, region_numbers_are_taken_back,
    supporters_are_found,
};
