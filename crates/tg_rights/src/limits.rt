//! The limits of a configuration and of the server, each named once.

/// The greatest number of active principals.
pub const MAX_PRINCIPALS: u64 = 64;

/// How many seats there are: seats are numbered from 0 to 63.
pub const SEATS: u64 = 64;

/// The greatest number of slots.
pub const MAX_SLOTS: u32 = 65_536;

/// The greatest number of cells.
pub const MAX_CELLS: u32 = 1_048_576;
