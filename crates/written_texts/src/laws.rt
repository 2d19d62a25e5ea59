//! Laws of all texts. The calls do nothing; their contracts are the laws.

ghost use Rattle.written_texts.specs.Laws.{BlocksKeepTexts, LinesKeepPrefixes, ProseIsFilledAlike};

/// The blocks of a text have all of it, in its order, except white space and quote signs.
///
/// So no word is lost or put elsewhere, and no mark of an item. It is a law of all texts, and the call does nothing.
pub fn blocks_keep_texts()
    ensures { BlocksKeepTexts }
{}

/// The lines of a paragraph have its prefixes: its quote signs, and its indent.
///
/// The first line has the mark of an item too, and the other lines have spaces in place of it. All of this follows the
/// text that is asked for before lines. It is a law of all texts, and the call does nothing.
pub fn lines_keep_prefixes()
    ensures { LinesKeepPrefixes }
{}

/// A text without signs has the lines of its paragraphs, as `paragraphs::fill_text` gives them.
///
/// It is a law of all texts, and the call does nothing.
pub fn prose_is_filled_alike()
    ensures { ProseIsFilledAlike }
{}
