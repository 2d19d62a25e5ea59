//! The indents of lines, and the price of a hyphen.

ghost use Rattle.std.specs.Prelude.{◌≡◌};
ghost use Rattle.paragraphs.specs.Private.PartStyles.{indent_of, price_of};

/// The indents of a paragraph's lines, and the price of a hyphen.
#[derive(Clone, Copy, Debug)]
pub struct Style<'s> {
    /// The text that is set before the first line.
    pub first: &'s str,
    /// The text that is set before each other line.
    pub indent: &'s str,
    /// The cost of a line's end at a break of a word.
    pub price: u32,
}

// Which indent a line has that begins with a part.
#[derive(Clone, Copy, Debug)]
pub enum Indent {
    // The indent of the paragraph's first line.
    First,
    // The indent of the other lines.
    Other,
    // None, since no line begins with the part.
    Inside,
}

// Returns an indent of a style.
#[inline(always)]
pub(crate) fn indent_of<'s>(style: &Style<'s>, indent: Indent) -> &'s str
    ensures { result.now ≡ indent_of style.now indent }
{
    match indent {
        Indent::First => style.first,
        Indent::Other => style.indent,
        Indent::Inside => "",
    }
}

// Returns the cost of a line's end after a part, at which a word is broken or not.
#[inline(always)]
pub(crate) fn price_of(style: &Style, broken: bool) -> u32
    ensures { result ≡ price_of style.now broken }
{
    if broken { style.price } else { 0 }
}
