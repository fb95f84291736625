// The largest number of each kind that a call takes: SPECIFICATION 7.2 to 7.6 and 7.11, as in specs/Limits.antt.
pub const MOST_RANK: usize = 256;

pub const MOST_PARTS: usize = 16;

pub const MOST_CONSTRAINTS: usize = 32;

pub const MOST_PROJECTIONS: usize = 256;

pub const MOST_COMMITMENT_RANK: usize = 8;

pub const LEAST_BASE: usize = 2;

pub const MOST_BASE: usize = 65536;

pub const MOST_DIGITS: usize = 8;

pub const MOST_CHUNKS: usize = 16;

pub const MOST_BOUND: u64 = 999999999999999;

// Room in numbers for lists of the largest sizes: the elements of one part, the elements of pairs i ≤ j, those of all pairs.
pub const PART_ROOM: usize = MOST_RANK * 64;

pub const PAIR_ROOM: usize = 8704;

pub const SQUARE_ROOM: usize = MOST_PARTS * MOST_PARTS * 64;
