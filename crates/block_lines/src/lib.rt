//! The lines of a block's rows, as a job makes them: straight from the block's cells and the registers of a frame, with no
//! value built for a row. [`scan_block`] tests a block and adds its lines to [`Lines`]; `scan_block(alloc, &mut frame, &heads,
//! bytes, &entry, "ts", &mut lines)?` scans one, where `heads` are `LineHeads::of(alloc, &job)?`, made once for the query.
#![tactic(auto)]

mod block;
mod chunks;
mod fault;
mod heads;
mod keyed;
mod line_list;
mod one_line;
mod pairs;
mod row_parts;
mod scanning;
mod sink;
mod values;

pub use block::take_block;
pub use fault::ScanFault;
pub use heads::LineHeads;
pub use keyed::scan_keyed;
pub use line_list::Lines;
pub use pairs::append_look;
pub use row_parts::{row_line, sort_keys};
pub use scanning::{scan_block, scan_rows};
pub use sink::RowSink;
pub use values::{look_value, values_of};
