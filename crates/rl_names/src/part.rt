//! What parts and startup texts are made of besides names.
use crate::text::Text;

/// A text of the interface under its key.
#[derive(Drop)]
pub struct Message {
    pub key: Text,
    pub text: Text,
}

/// Where modules of one source are served. The empty name is this wiki, written `local`.
#[derive(Drop)]
pub struct Source {
    pub name: Text,
    pub url: Text,
}
