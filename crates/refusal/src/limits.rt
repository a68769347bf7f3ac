//! The bounds that several layers share.

/// Stations are the numbers below this.
pub const STATIONS: u8 = 64;

/// Passes count from 0 to this.
pub const LAST_PASS: u32 = 999_999;
