//! Replies may go to other threads, and be seen by several: the lanes that make them run beside
//! each other.

use crate::reply::Reply;

fn crosses<T: Send + Sync>() {}

fn replies_cross() {
    crosses::<Reply>();
}
