//! What no clause says: examples of heads, routes and answers, with ample memory.
pub(crate) mod answers;
mod heads;
mod serving;
