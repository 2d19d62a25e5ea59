//! Dictionaries that several tests use, loaded from their texts.

use hyphenation::extended::Extended;
use hyphenation::load::{Error, Load};
use std::alloc::Global;
use std::test::Fail;

/// The shortest text with a pattern that is accepted.
pub const SMALLEST: &[u8] = b"hyphenation 1 standard\nlanguage en-us\nminima 2 3\np a1b";

/// The patterns that occur in `firkin`, in British English.
pub const FIRKIN: &str =
    "hyphenation 1 standard\nlanguage en-gb\nminima 2 3\np .fi2\np i2r\np r2k\np r5kin\np k1in\np k2in.\n";

/// The patterns that occur in `firkin`, in American English.
pub const AMERICAN: &str =
    "hyphenation 1 standard\nlanguage en-us\nminima 2 3\np .fi2\np i2r\np r2k\np r5kin\np k1in\np k2in.\n";

/// Doubled letters that come back at a break, in Hungarian.
pub const DOUBLED: &str =
    "hyphenation 1 extended\nlanguage hu\nminima 2 2\ne asszonnyal 2,1,2,2,szsz 6,1,2,2,nyny\n";

/// The dictionary of this text.
pub fn load<D: Load>(alloc: Global, text: &str) -> Result<D, Error> {
    let mut reader = text.as_bytes();
    D::any_from_reader(alloc, &mut reader)
}

/// The extended dictionary of a text with these minima and lines.
pub fn extended(alloc: Global, minima: &str, lines: &str) -> Result<Extended, Fail> {
    let text = format!(in alloc;
        "hyphenation 1 extended\nlanguage hu\nminima {minima}\n{lines}\n"
    )?;
    Ok(load(alloc, &text)?)
}
