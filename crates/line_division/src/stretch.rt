//! The stretches of which lines are made.

ghost use Rattle.std.specs.Prelude.{◌≡◌, ◌^◌, ◌<◌};

/// The columns of a text between two neighbouring places at which a line may end.
///
/// ```text
///     opening | width | closing        where a line holds only it
///               width | joint | ..     where the line goes on after it
/// ```
///
/// A word before a space has a joint of 1 and no closing. A syllable before a break has no joint, and a closing of 1
/// for its hyphen, and is `hyphenated`. The indent of a line is in the opening of each stretch with which it could
/// begin.
#[derive(Clone, Copy, Debug)]
pub struct Stretch {
    /// Those of the text that is set before it where a line begins with it.
    pub opening: u32,
    /// Those of its own text.
    pub width: u32,
    /// Those of the text between it and the next one where both are in one line.
    pub joint: u32,
    /// Those of the text that is set after it where a line ends with it.
    pub closing: u32,
    /// The cost of a line's end after it.
    pub price: u32,
    /// Whether a line that ends with it ends in a hyphen.
    pub hyphenated: bool,
}

// Returns columns or a price as a number whose sums fit.
pub(crate) fn widened(number: u32) -> u64
    ensures value { result ≡ number }
    ensures small { result < 2 ^ 32 }
{
    u64::from(number)
}
