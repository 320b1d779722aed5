// The limits that several crates hold to: of a call's fuel, of a file, and of a program's text. And how an object begins.

/// The most fuel of a call, in units.
pub const MOST_FUEL: u64 = 1_000_000_000_000;

/// The longest file of a state, an image, a script or a mirror, in bytes.
pub const MOST_FILE_BYTES: usize = 67_108_864;

/// The longest text of a program, in bytes. An object of a program has a limit of its own.
pub const MOST_PROGRAM_BYTES: usize = 262_144;

/// The 4 bytes that an object of a program begins with.
pub const OBJECT_MAGIC: [u8; 4] = *b"LAO1";
