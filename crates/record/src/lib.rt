// Inner: nothing here is offered to callers; each `requires` is shown by the writer and the reader of `shelf`. What the
// forms of a record share: its numbers and coefficients in bytes, and its header.

#![tactic(auto)]

mod body;
mod bytes;
mod header;
mod look;

pub use body::{Body, fill};
pub use bytes::{get, put, put_body};
pub use header::{
    byte_for, byte_of, check_header, count_in, index_in, kind_in, put_header, width_in,
};
pub use look::right_width;
