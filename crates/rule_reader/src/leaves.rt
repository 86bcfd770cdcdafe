//! What stands at the leaves of a body.

pub(crate) mod name;
pub(crate) mod reference;
pub(crate) mod tag;
pub(crate) mod times;
pub(crate) mod token;
pub(crate) mod weight;
