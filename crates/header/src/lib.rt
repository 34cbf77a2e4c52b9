// The header of an MRT record (RFC 6396, section 2): where its fields stand, and their bytes.
#![tactic(auto)]

pub const SECONDS_AT: usize = 0;

pub const SECONDS_SIZE: usize = 4;

pub const TYPE_AT: usize = SECONDS_AT + SECONDS_SIZE;

pub const TYPE_SIZE: usize = 2;

pub const SUBTYPE_AT: usize = TYPE_AT + TYPE_SIZE;

pub const SUBTYPE_SIZE: usize = 2;

pub const LENGTH_AT: usize = SUBTYPE_AT + SUBTYPE_SIZE;

pub const LENGTH_SIZE: usize = 4;

pub const SIZE: usize = LENGTH_AT + LENGTH_SIZE;
