//! The listing of a sheet, printed.
#![tactic(auto)]

pub mod place;
pub mod quote;
pub mod show;

pub use quote::Quoted;
pub use show::Listing;
