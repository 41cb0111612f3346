// Where the parts of a record start (document 01, "Piles and reports"). Each part ends where the next starts. The
// definitions have the same names.

// Key 0-31: the server's long-term key.
pub const KEY: usize = 0;

// Rand 32-63.
pub const RAND: usize = 32;

// Request length u32 at 64.
pub const REQUEST_LENGTH: usize = 64;

// Response length u32 at 68.
pub const RESPONSE_LENGTH: usize = 68;

// Zeros 72-95.
pub const ZEROS: usize = 72;

// Request area 96-2,095.
pub const REQUEST: usize = 96;

// Response area 2,096-4,095.
pub const RESPONSE: usize = 2096;

// The length of a record.
pub const RECORD: usize = 4096;

// The length of an area, and so the most that a packet has.
pub const AREA: usize = 2000;
