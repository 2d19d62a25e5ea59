//! Where a line is in a text.

/// Where a line is in a text.
#[derive(Clone, Copy, Debug)]
pub enum LinePlace {
    /// Before the first line.
    Beginning,
    /// In the head of a mail.
    Head,
    /// Among paragraphs.
    Body,
    /// Within lines of code between three backquotes.
    Fence,
    /// Within lines of code between three tildes.
    Tildes,
    /// In a signature.
    Signature,
}
