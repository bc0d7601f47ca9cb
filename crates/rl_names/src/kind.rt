//! What a state line says.
/// What a state line says of a module that is not served.
#[derive(Clone, Copy, Debug, PartialEq, Eq)]
pub enum StateKind {
    Missing,
    Error,
}
