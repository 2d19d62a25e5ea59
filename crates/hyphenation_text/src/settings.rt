//! How a text or a page is hyphenated, besides the dictionaries.

ghost use Rattle.std.specs.Prelude.{◌≡◌, Bool, codes};
ghost use Rattle.hyphenation_text.specs.Laws.{soft_hyphen};

/// The mark that is put into a text or a page, and which text is left as it is.
///
/// ```text
/// let settings = Settings { min_word: 6, ..Settings::new() };
/// ```
#[derive(Clone, Copy, Debug)]
pub struct Settings<'s> {
    /// The mark that is put in at each break of a word.
    pub mark: &'s str,
    /// The class of elements of a page whose text is left as it is.
    pub class: &'s str,
    /// Words of fewer characters are left as they are.
    pub min_word: usize,
    /// Whether words that begin with a capital are left as they are.
    pub skip_capitals: bool,
}

impl Settings<'static> {
    /// Returns the usual settings: soft hyphens, in all words but those of the class `donthyphenate`.
    pub const fn new() -> Settings<'static>
        ensures mark { result.mark.now ≡ soft_hyphen }
        ensures class { result.class.now ≡ codes "donthyphenate" }
        ensures min_word { result.min_word ≡ 0 }
        ensures skip_capitals { result.skip_capitals ≡ Bool.false }
    {
        Settings {
            mark: "\u{ad}",
            class: "donthyphenate",
            min_word: 0,
            skip_capitals: false,
        }
    }
}
