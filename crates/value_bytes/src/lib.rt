//! Numbers, texts, lists and what may be absent as bytes: numbers with the high byte first, lists with their count,
//! texts with their length. Each is a field, that tells its value whatever
//! stands behind it, and has a reader over a slice and a writer into a buffer.
#![tactic(auto)]

mod field_types;
mod laws;
mod reads;
mod texts;
mod whole;
mod writers;
mod writes;

pub use field_types::{
    Both, Flag, LongList, LongText, Optional, ShortList, ShortText, U8, U16, U32, U64,
};
pub use laws::fields;
pub use reads::{
    FieldReader, Unread, read_list, read_long_list, read_times, read_u8, read_u16, read_u32,
    read_u64,
};
pub use texts::{read_flag, read_long_text, read_optional, read_short_text};
pub use whole::read_whole;
pub use writes::{
    FieldWriter, put_all, put_flag, put_list, put_long_list, put_long_text, put_optional,
    put_short_text, put_u8, put_u16, put_u32, put_u64,
};
