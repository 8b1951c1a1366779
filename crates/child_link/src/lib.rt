//! What a child of the manager reports in lines, the lines that it is sent, and the ends of its
//! pipes.
#![tactic(auto)]

mod cutting;
mod feed;
mod lines;
mod link;
mod words;

pub use cutting::{LineCutter, kept_lines_are_read};
pub use feed::{Feed, PipeFeed, PipePast};
pub use lines::{
    Reported, control_line, controls_are_read, orders_are_read, read_control_line, read_line_step,
    read_order_line, read_report, report_line, reports_are_read,
};
pub use link::{Link, MemoryLink, PipeLink, SliceLink};
