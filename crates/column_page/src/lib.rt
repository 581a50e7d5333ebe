//! Pages, the cells of one column in a block in the shortest of three forms, and the footers of segments.
#![tactic(auto)]

mod decode;
mod faults;
mod footer_fits;
mod footer_reads;
mod footer_writes;
mod footers;
mod laws;
mod marks;
mod pages;
mod reads;
mod runs;
mod texts;
mod values;
mod whole_footers;
mod words;

pub use faults::{FooterFault, PageFault};
pub use footer_writes::{put_u32, write_footer};
pub use footers::{BlockMark, ColumnMark, Footer, FooterFields, Span};
pub use laws::column_marks;
pub use marks::{column_mark, mark_of};
pub use pages::{all_fit, decode_cell, decode_page, encode_column, encode_page};
pub use reads::{ReadValue, read_cell};
pub use values::put_cell;
pub use whole_footers::{read_footer, read_footer_body};
