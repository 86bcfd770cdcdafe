//! The outside: sources and sinks of bytes, and the lines of a source.
#![tactic(auto)]

mod adapters;
mod calls;
mod chunk;
mod dir_store;
mod gate;
mod gathered;
mod gathering;
mod laws;
mod limits;
mod lines;
mod memory_sink;
mod memory_source;
mod memory_store;
mod null_sink;
mod sink;
mod source;
mod store;
mod sure_source;
mod whole;

pub use adapters::{ReadSource, WriteSink};
pub use dir_store::DirStore;
pub use gate::{Gate, Open};
pub use laws::lines_are_cut_at_feeds;
pub use limits::{INPUT_LIMIT, LINE_LIMIT, lines_have_their_limits};
pub use lines::{Finish, LineReader, Next};
pub use memory_sink::MemSink;
pub use memory_source::MemSource;
pub use memory_store::MemStore;
pub use null_sink::NullSink;
pub use sink::Sink;
pub use source::{Failed, Source};
pub use store::{Store, StoreFailed};
pub use sure_source::SureSource;
pub use whole::write_all;

#[cfg(test)]
mod tests;
