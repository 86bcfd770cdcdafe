//! Tests of what no clause says: worked rows, each allocating call with ample memory, and the
//! trusted edge.

mod edge;
mod lines;
mod sinks;
mod stores;
