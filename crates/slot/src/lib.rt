// One slot of a sheet: its 2,824 words as a lent slice.
#![tactic(auto)]

mod edit;
mod giving;
mod redone;
mod stretch;
mod words;

pub use edit::{EditAnswer, edit_slot};
pub use giving::give_back_slot;
pub use words::clear;
