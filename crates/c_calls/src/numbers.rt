//! The numbers by which C names kinds and causes.

ghost use Rattle.std.specs.Prelude.{◌≡◌};
ghost use Rattle.c_calls.specs.Statuses.{cause_number, kind_number, kind_numbered};

use hyphenation_grammar::Cause;
use hyphenation_grammar::form::Kind;

/// Returns the kind of a number: 0 is standard, and 1 extended.
pub fn kind_numbered(number: u32) -> Option<Kind>
    ensures { result ≡ kind_numbered number }
{
    match number {
        0 => Some(Kind::Standard),
        1 => Some(Kind::Extended),
        _ => None,
    }
}

/// Returns the number of a kind: 0 is standard, 1 extended, and 2 none.
pub fn kind_number(kind: Option<Kind>) -> u32
    ensures { result ≡ kind_number kind }
{
    match kind {
        Some(Kind::Standard) => 0,
        Some(Kind::Extended) => 1,
        None => 2,
    }
}

/// Returns the number of a cause, from 1 on in the order of the tests.
pub fn cause_number(cause: Cause) -> u32
    ensures { result ≡ cause_number cause }
{
    match cause {
        Cause::NotUtf8 => 1,
        Cause::Header => 2,
        Cause::Language => 3,
        Cause::Minima => 4,
        Cause::UnknownLine => 5,
        Cause::Token => 6,
        Cause::Value => 7,
        Cause::Pattern => 8,
        Cause::NoLetters => 9,
        Cause::Number => 10,
        Cause::Place => 11,
        Cause::Change => 12,
        Cause::RepeatedPattern => 13,
        Cause::RepeatedException => 14,
    }
}
