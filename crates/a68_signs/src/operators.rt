//! The operators of the standard environ by their numbers, the rows of the table of signs, in the order of the Report's
//! list (10.2.3; the numbers are own).
//!
//! Those up to [`PLUSTO`] are combined with assignation, those up to [`UPB_OF`] stand between two operands, and the others
//! before one. Those of LEVEL, UP, DOWN, LWB and UPB, and those combined with assignation, look at the store or at a row;
//! the others yield at once.

/// `+:=`.
pub const PLUSAB: u32 = 1;
/// `-:=`.
pub const MINUSAB: u32 = 2;
/// `*:=`.
pub const TIMESAB: u32 = 3;
/// `%:=`.
pub const OVERAB: u32 = 4;
/// `%*:=`.
pub const MODAB: u32 = 5;
/// `+=:`.
pub const PLUSTO: u32 = 6;

pub const OR: u32 = 7;

pub const AND: u32 = 8;
/// `=`.
pub const EQ: u32 = 9;
/// `/=`.
pub const NE: u32 = 10;
/// `<`.
pub const LT: u32 = 11;
/// `<=`.
pub const LE: u32 = 12;
/// `>=`.
pub const GE: u32 = 13;
/// `>`.
pub const GT: u32 = 14;
/// `+` between two operands.
pub const PLUS: u32 = 15;
/// `-` between two operands.
pub const MINUS: u32 = 16;
/// `*`.
pub const TIMES: u32 = 17;

pub const OVER: u32 = 18;

pub const MOD: u32 = 19;

pub const ELEM: u32 = 20;
/// `**`.
pub const POWER: u32 = 21;

pub const SHL: u32 = 22;

pub const SHR: u32 = 23;
/// LWB of a dimension, which stands on its left.
pub const LWB_OF: u32 = 24;
/// UPB of a dimension, which stands on its left.
pub const UPB_OF: u32 = 25;
/// `+` before an operand.
pub const POSITIVE: u32 = 26;
/// `-` before an operand.
pub const NEGATIVE: u32 = 27;

pub const NOT: u32 = 28;

pub const ABS: u32 = 29;

pub const SIGN: u32 = 30;

pub const ODD: u32 = 31;

pub const REPR: u32 = 32;

pub const BIN: u32 = 33;

pub const LEVEL: u32 = 34;

pub const UP: u32 = 35;

pub const DOWN: u32 = 36;
/// LWB of the first dimension.
pub const LWB: u32 = 37;
/// UPB of the first dimension.
pub const UPB: u32 = 38;
/// From INT to LONG INT.
pub const LENG: u32 = 39;
/// From LONG INT to INT.
pub const SHORTEN: u32 = 40;

/// So many rows behind each operator that is combined with assignation, from [`PLUSAB`] to [`MODAB`], stands the one that it
/// combines, from [`PLUS`] to [`MOD`].
pub const PLUS_FROM_PLUSAB: u32 = PLUS - PLUSAB;
