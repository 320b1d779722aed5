// How a connection ended, and the serving of links.

/// How a connection ended.
#[derive(Clone, Copy)]
pub enum ConnectionEnd {
    /// It was closed by the side that serves, or the input ended.
    Over,
    /// The link failed, and its count of faults rose.
    LinkFault,
    /// It could not go on: memory was wanting, or a server's commits could not be kept.
    Stopped,
}

/// How the serving of a net ended.
#[derive(Clone, Copy)]
pub enum ServingEnd {
    /// All links were served that were to be, or an accept failed.
    Served {
        /// Whether a link failed, or an accept.
        link_fault: bool,
    },
    /// It could not go on: memory was wanting, or a server's commits could not be kept.
    Stopped,
}
