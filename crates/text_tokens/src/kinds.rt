// The kinds of tokens: a number for each reserved word and each mark, in the order in which specs/KindsCode.antt has
// them, and for the end of the text, names, numbers and bad tokens.
pub const VOID: u8 = 0;

pub const INT: u8 = 1;

pub const BOOLEAN: u8 = 2;

pub const QBIT: u8 = 3;

pub const CHANNEL: u8 = 4;

pub const CHANNEL_END: u8 = 5;

pub const WITHENDS: u8 = 6;

pub const ALIASFOR: u8 = 7;

pub const NEW: u8 = 8;

pub const MEASURE: u8 = 9;

pub const FORK: u8 = 10;

pub const RETURN: u8 = 11;

pub const IF: u8 = 12;

pub const ELSE: u8 = 13;

pub const WHILE: u8 = 14;

pub const RECV: u8 = 15;

pub const SEND: u8 = 16;

pub const TRUE: u8 = 17;

pub const FALSE: u8 = 18;

// ( ) { } [ ] , ; + - = == <
pub const OPEN: u8 = 19;

pub const CLOSE: u8 = 20;

pub const OPEN_BRACE: u8 = 21;

pub const CLOSE_BRACE: u8 = 22;

pub const OPEN_BRACKET: u8 = 23;

pub const CLOSE_BRACKET: u8 = 24;

pub const COMMA: u8 = 25;

pub const SEMICOLON: u8 = 26;

pub const PLUS: u8 = 27;

pub const MINUS: u8 = 28;

pub const ASSIGN: u8 = 29;

pub const EQUALS: u8 = 30;

pub const LESS: u8 = 31;

// The end of the text, which has no bytes.
pub const END: u8 = 32;

// A word that is not reserved.
pub const NAME: u8 = 33;

pub const NUMBER: u8 = 34;

// "Any other byte is a bad token of length 1 that can follow nothing."
pub const BAD: u8 = 35;
