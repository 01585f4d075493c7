//! The bytes of a row, written and read.
//!
//! Stands on `row_parts`, which says what a row is and which bytes each row has. Public contract:
//! `encode_row` writes the one spelling of a row, and `encode_sending` that of a row with other deliveries
//! before it has them; `encode_edit` writes what of the bytes changes then; `decode_row` answers the row whose
//! spelling the bytes are, and Damaged only where there is none. So decoding gives back what was encoded, and
//! nothing else decodes. Definition: `spelling_of` of `row_parts/specs/Spelling.antt`.
#![tactic(auto)]

mod decode;
mod encode;
mod lengths;
mod refusal;

pub use decode::decode_row;
pub use encode::{encode_edit, encode_over, encode_row, encode_sending};
pub use lengths::bytes_behind;
pub use refusal::RowRefusal;
