//! What a request asks for.

/// What a request asks for, by its method and its path.
#[derive(Clone, Copy, Debug, PartialEq, Eq)]
pub enum Route {
    /// GET `/load.php`: the answer to the query.
    Load,
    /// POST `/edit`: one more edit of a page.
    Edit,
    /// POST `/option`: a choice of the viewer.
    Choice,
    /// GET `/revision`: the revision of a page.
    Revision,
    /// Another path, whatever the method.
    NotFound,
    /// One of these paths with another method.
    NotAllowed,
}

/// A path that is served.
#[derive(Clone, Copy, Debug, Drop, PartialEq, Eq)]
pub enum Call {
    Load,
    Edit,
    Choice,
    Revision,
}
