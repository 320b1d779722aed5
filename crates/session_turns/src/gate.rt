// What a turn passes.

/// What each turn of a round passes first, on the thread that it runs on. It may be held there; it changes nothing.
pub trait Gate: Sync {
    /// The turn of the session with this number begins.
    fn pass(&self, session: u16);
}

/// A gate that stands open.
#[derive(Clone, Copy)]
pub struct NoGate;

impl Gate for NoGate {
    fn pass(&self, _session: u16) {}
}
