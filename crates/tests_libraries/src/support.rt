//! Assertions of tests, readers and writers that fail, and dictionaries that several tests use.

pub mod dictionaries;
pub mod files;
pub mod gate;
pub mod io_errors;
pub mod readers;
pub mod writers;

use std::alloc::AllocError;
use std::fmt::{Debug, Display};
use std::test::Fail;

/// Fails, with both values, unless they are equal. A test that ends with this call is proved sooner than one with an
/// assertion of the kit's.
pub fn expect_equal<T: PartialEq + Debug>(found: &T, wanted: &T) -> Result<(), Fail> {
    if found == wanted {
        Ok(())
    } else {
        Err(Fail::new(format_args!("found {found:?} and not {wanted:?}")))
    }
}

/// Fails, with the case and both values, unless they are equal.
pub fn expect_equal_in<C: Display + Drop, T: PartialEq + Debug>(
    case: C,
    found: &T,
    wanted: &T,
) -> Result<(), Fail> {
    if found == wanted {
        Ok(())
    } else {
        Err(Fail::new(format_args!("{case}: found {found:?} and not {wanted:?}")))
    }
}

/// Fails if a call failed or returned another text.
pub fn expect_text<E: Into<Fail>>(found: Result<String, E>, wanted: &str) -> Result<(), Fail> {
    match found {
        Ok(found) => expect_equal(&found.as_str(), &wanted),
        Err(error) => Err(error.into()),
    }
}

/// Whether an item of a word is this text.
pub fn is_item(item: &Option<Result<String, AllocError>>, wanted: &str) -> bool {
    match item {
        Some(Ok(text)) => text.as_str() == wanted,
        _ => false,
    }
}

/// Fails, with the case, unless a condition holds.
pub fn expect<C: Display + Drop>(is_so: bool, case: C) -> Result<(), Fail> {
    if is_so {
        Ok(())
    } else {
        Err(Fail::new(format_args!("it does not hold: {case}")))
    }
}
