//! Reasons, in words: what the program tells of a fault on standard error.
#![tactic(auto)]

mod captures;
mod checked_files;
mod checks;
mod command_line;
mod differing;
mod failures;
mod feeds;
mod filling;
mod formats;
mod forms;
mod graphs;
mod lines;
mod losses;
mod nearest;
mod refusals;
mod rereading;
mod scripts;
mod times;
mod walking;
mod waves;

pub use captures::{Capture, of_capture};
pub use checked_files::{of_checked_file, of_exchange};
pub use checks::of_check;
pub use command_line::{of_foreign_word, of_words};
pub use differing::{of_channels, of_disk_channels, of_disks, of_guests, of_rate, of_records};
pub use failures::{
    of_closing, of_graph, of_input, of_making, of_open_output, of_report, of_summary, of_verdict,
    of_writing, standing_in,
};
pub use feeds::{Channel, of_feeds};
pub use formats::{Made, made_by};
pub use graphs::of_wrong;
pub use losses::{of_fills, of_lost_blocks, of_rings, of_underruns};
pub use reason_text::Reason;
pub use refusals::of_refusals;
pub use rereading::read_again;
pub use scripts::of_script;
pub use waves::of_wave;
