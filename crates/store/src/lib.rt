//! What a store of texts, lists and tables is: what may be asked of it, and what may be put in it.
#![tactic(auto)]

pub mod filled;
pub mod images;
pub mod place;
pub mod refusal;
pub mod traits;

pub use place::{ListAt, Slot, TableAt, TextAt};
pub use refusal::StoreRefusal;
pub use traits::{ReadStore, WriteStore};
