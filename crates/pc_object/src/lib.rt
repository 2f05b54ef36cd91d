//! Objects and their format, PTV1 or PTV2: a code and a note for each pipelined or refused loop, as
//! bytes.
#![tactic(auto)]

mod decoding;
mod encoding;
mod fields;
mod laws;
mod object;
mod refusal;
mod rows;
mod sizes;
mod storage;
mod tag;
mod version;
mod writing;

pub use decoding::decode;
pub use encoding::{EncodeError, encode};
pub use laws::{
    depth_decides_nothing, flawed_is_bad_field, longer_is_trailing, one_object,
    reads_exactly_texts, shorter_is_truncated, sizes_are_lengths,
};
pub use object::{Note, NoteList, Object};
pub use refusal::ObjectError;
pub use sizes::{
    COUNT_BYTES, END_BYTES, GOTO_BYTES, HEADER_BYTES, LENGTH_BYTES, NOTE_BYTES, TRAP_BYTES,
    item_bytes, operand_bytes, test_bytes,
};
pub use version::{Version, version_for};
pub use writing::{
    push_data, push_item, push_leaf, push_lengths, push_note, push_operand, push_u16, push_u32,
    push_version, push_word,
};
