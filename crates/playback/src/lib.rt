// A record played: bytes in, printed lines out.
#![tactic(auto)]

mod bytes;
mod list;

pub use bytes::{COMPACT_PRINT_SIZE, PRINT_SIZE, print, print_compact, print_into, print_on};
pub use list::{LINES_SIZE, print_lines, print_refused};
