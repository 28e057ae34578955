// From a paragraph's record words to its lines and places.
#![tactic(auto)]

mod adjustment;
mod breaking;
mod checks;
mod composing;
mod kept;
mod metrics;
mod paragraph;
mod places;
mod scan;
mod units;

pub use composing::{check, compose};
pub use kept::keep_metrics;
pub use metrics::Metrics;
pub use paragraph::Paragraph;
pub use places::Composition;
pub use scan::Judged;
