//! Streams, by the bytes that come in and those that are answered.

mod books;
pub(crate) mod failing_reader;
pub(crate) mod failing_writer;
pub(crate) mod faltering_reader;
pub(crate) mod late_writer;
pub(crate) mod pieces;
mod ports;
