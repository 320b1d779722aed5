// The kinds of messages, as the byte behind the length field has them.

/// A request to begin a session.
pub const HELLO: u8 = 1;

/// A request to call a role.
pub const CALL: u8 = 2;

/// A request to run calls.
pub const GO: u8 = 3;

/// A request to end a session.
pub const BYE: u8 = 4;

/// A request for a piece.
pub const FETCH: u8 = 5;

/// The reply that a session begins.
pub const WELCOME: u8 = 0x81;

/// The reply with the proof of a call.
pub const PROOF: u8 = 0x82;

/// The reply that an update came too late.
pub const STALE: u8 = 0x83;

/// The reply that a greeting or a call is refused, or that all sessions end.
pub const REFUSED: u8 = 0x84;

/// The reply that a session has ended, or that all have.
pub const CLOSED: u8 = 0x85;

/// The answer with a piece.
pub const PIECE: u8 = 0x86;

/// The answer that there is no such piece.
pub const LACK: u8 = 0x87;
