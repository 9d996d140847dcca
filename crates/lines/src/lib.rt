// The printed lines of one quarter.
#![tactic(auto)]

mod line;
mod quarter_lines;
mod record_lines;

pub use line::{Line, line_of};
pub use quarter_lines::{FiveAnswers, FiveLines, QuarterLines, lines_of};
pub use record_lines::{RecordLine, RecordLines};
