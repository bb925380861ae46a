/// The most files of a session.
pub const MOST_FILES: usize = 256;

/// The most bytes of all files of a session: 64 MiB.
pub const MOST_BYTES: usize = 67_108_864;
