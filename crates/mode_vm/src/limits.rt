// The limits of a value.

/// The greatest depth of a value: `depth_limit` of the formats.
pub(crate) const DEPTH_LIMIT: u32 = 512;
