//! The styles in which the facts are written.

/// The style of a text that explains a word.
#[derive(Clone, Copy, Debug, PartialEq, Eq)]
pub enum Style {
    /// A picture for people: each row of values below the letters of the word.
    Picture,
    /// Lines for programs: a name, and fields after tabs.
    Lines,
    /// A document in SVG: the picture, for readers of pages.
    Svg,
}
