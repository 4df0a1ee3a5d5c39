// The bounds of the number modulo which sessions are counted.

/// The least number modulo which sessions can be counted: modulo 1 all of them would be one.
pub const MIN_MODULUS: u64 = 2;

/// The greatest number modulo which sessions can be counted: a register of 32 bits has as many values.
pub const MAX_MODULUS: u64 = 4_294_967_296;
