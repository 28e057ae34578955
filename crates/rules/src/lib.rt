// The leaf functions of the rules, a module to a section of docs/RULES.md.
#![tactic(auto)]

mod answer;
mod breaks;
mod classes;
mod gaps;
mod groups;
pub mod layout;
pub mod limits;
mod line_kind;
mod measure;
mod records;
mod refusal;
mod spacing;
mod words;

pub use answer::{Answer, Edited};
pub use gaps::{Gap, Joint, PackedGap, joint_between};
pub use groups::{RubyPlace, Side, base_offset, group_advance, ruby_place};
pub use line_kind::{LineKind, NoLineKind};
pub use measure::{Measure, limits_ok, slot_limits_ok};
pub use records::{Record, plain_ok, record_ok};
pub use refusal::Refusal;
pub use words::put;
