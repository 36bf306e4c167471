// The limits, each said once: specs/Limits.antt has them for the definitions.

// ---- of the library

pub const MAX_CHECKS: usize = 65536;

pub const MAX_MECHANISMS: usize = 65536;

pub const MAX_EDGES: usize = 1048576;

// Relayed legs, iterations of min-sum, of leg zero and of a relayed leg, and explicit sets of gammas, each.
pub const MAX_COUNT: usize = 65535;

// ---- of the room that `shots` has

pub const ROOM_CHECKS: usize = 128;

pub const ROOM_MECHANISMS: usize = 256;

pub const ROOM_EDGES: usize = 512;

// Relayed legs.
pub const ROOM_LEGS: usize = 16;

// The offsets of checks and of mechanisms, one more of each.
pub const ROOM_CHECK_OFFSETS: usize = 129;

pub const ROOM_MECHANISM_OFFSETS: usize = 257;

// All legs, and their correction rows.
pub const ROOM_ALL_LEGS: usize = 17;

pub const ROOM_ROWS: usize = 4352;

// The bytes of a shot's payload: a seed, and a syndrome.
pub const ROOM_SHOT: usize = 136;

// The bytes of a model's payload, the longest within the room: 12 of counts, 12 a mechanism and 4 an edge.
pub const ROOM_PAYLOAD: usize = 5132;

// The bytes of a line.
pub const ROOM_LINE: usize = 512;
