// The limits of sessions and of their lines. Each is stated here alone.

/// The most bytes of a line, without its newline.
pub const LONGEST_LINE: usize = 1024;

/// The most bytes of a session.
pub const MOST_BYTES: usize = 16_777_216;

/// How many bytes a line reader has room for. What it keeps for the next line fills a quarter of it at most.
pub const BUFFER_ROOM: usize = 4096;
