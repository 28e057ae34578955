// Web leaflets, UTF-8 text with ruby, rt and rp, read into the words of records: "How a leaflet is read" in
// docs/RULES.md.
#![tactic(auto)]

mod ahead;
mod characters;
mod items;
mod progress;
mod reader;
mod records;
mod spots;

pub use reader::{Fault, read_leaflet};
pub use records::ROOM;
