// The calls on a sheet, and ruby place.
#![tactic(auto)]

mod editing;
mod entry;
mod importing;
mod reading;
mod setting_up;
mod taking;

pub use editing::edit;
pub use entry::{Clinic, SlotNumber};
pub use importing::{ImportAnswer, import};
pub use reading::{Part, read, read_number, read_part};
pub use rules::{Answer, RubyPlace, ruby_place};
pub use setting_up::set_up;
pub use slot::EditAnswer;
pub use taking::{give_back, take};
