//! Versions may go to other threads, and be read by several at once.

use crate::version::Version;

fn crosses<T: Send + Sync>() {}

fn versions_cross() {
    crosses::<Version>();
}
