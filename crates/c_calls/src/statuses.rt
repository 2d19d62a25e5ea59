//! The statuses that calls return.

/// The call is done.
pub const DONE: u32 = 0;

/// A buffer is too short: the count says how much room is wanted.
pub const NO_ROOM: u32 = 1;

/// Memory was refused.
pub const OUT_OF_MEMORY: u32 = 2;

/// The handle holds no dictionary.
pub const NO_DICTIONARY: u32 = 3;

/// A word, a text, a mark, an edit, a language or the value of a variable is not UTF-8.
pub const NOT_UTF8: u32 = 4;

/// A dictionary text, a file of patterns or an edit is refused.
pub const REFUSED: u32 = 5;

/// No kind or no form has that number, or the dictionary is of the other kind.
pub const OTHER_KIND: u32 = 6;

/// A language is no code.
pub const NO_LANGUAGE: u32 = 7;

/// A word of a list ends before it begins, or after the text.
pub const BAD_ENDS: u32 = 8;

/// A minimum is neither given nor in the head of the file.
pub const NO_MINIMA: u32 = 9;

/// A word is no exception.
pub const NO_EXCEPTION: u32 = 10;
