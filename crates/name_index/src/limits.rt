/// The most bytes of a file that are taken in: 16 MiB.
pub const FILE_LIMIT: usize = 16_777_216;
