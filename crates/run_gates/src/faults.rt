// The numbers of faults, as a line has them: an emptied value; a channel beyond 16, a qubit beyond 32, a process beyond
// 8; no outcome left; a frame beyond 8; an int out of range; a two-qubit gate on one qubit; an offer whose partner has
// gone (Paper 6).
pub const EMPTY: u16 = 20;

pub const CHANNEL_BEYOND_16: u16 = 21;

pub const QUBIT_BEYOND_32: u16 = 22;

pub const PROCESS_BEYOND_8: u16 = 23;

pub const NO_OUTCOME_LEFT: u16 = 24;

pub const FRAME_BEYOND_8: u16 = 25;

pub const OUT_OF_RANGE: u16 = 26;

pub const ONE_QUBIT_TWICE: u16 = 27;

pub const GONE: u16 = 33;
