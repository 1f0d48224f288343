//! Rows, decimal numbers and names of text files, and the faults that a reader of a file names.
#![tactic(auto)]

mod decimals;
mod faults;
mod holding;
mod names;
mod reader;
mod row;
mod shapes;

pub use decimals::{NumberFault, number, push_decimal};
pub use faults::{BAD_HEADER, BAD_ROW, FaultPlace, LONGEST_FILE, ReadFault, fault_line};
pub use holding::beside;
pub use names::{LONGEST_NAME, Name, is_name};
pub use reader::RowReader;
pub use row::{Row, rows};
pub use shapes::{five_fields, four_fields, is_header, three_fields, two_fields};
