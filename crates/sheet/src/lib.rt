//! Sheets: an Arrow schema in the caller's memory, as field records in preorder, pairs and text bytes.
#![tactic(auto)]

pub mod find;
pub mod memory;
pub mod unread;

pub use find::{HasText, first_with_text, spells, text_bytes, text_in};
pub use memory::Sheet;
pub use unread::Unread;
