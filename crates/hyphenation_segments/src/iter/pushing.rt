//! Appending the marked segments of a word to a text, without a text for each segment.
//!
//! Whole texts are hyphenated by this; the iterators are for callers that need the segments one by one.

ghost use Rattle.std.specs.Prelude.{◌≡◌, ◌++◌, map, slice_range, IfOk, OnErr, OnOk};
ghost use Rattle.std.specs.Io.{StartsWith};
ghost use Rattle.std.specs.Str.{IsCharBoundary};
ghost use Rattle.std.specs.String.{string_bytes};
ghost use Rattle.hyphenation_breaks.specs.Break.{begin_of, end_of, before_of, after_of};
ghost use Rattle.hyphenation_segments.specs.Fits.{Fits, BreakFitsAfter};
ghost use Rattle.hyphenation_segments.specs.Segments.{through_break, marked_word};

use crate::words::Word;
use hyphenation_breaks::breaks::Break;
use std::alloc::AllocError;

// Appends the text from a place to a break's range, and then the halves of its change with the mark between them.
// Returns where the range ends.
fn push_break<B: Break>(
    output: &mut String,
    text: &str,
    start: usize,
    b: &B,
    mark: &str,
) -> Result<usize, AllocError>
    requires start_at_character { IsCharBoundary text.now start }
    requires fits_after { BreakFitsAfter text.now start 0 (B.meaning b.now) }
    ensures appended { OnOk result (string_bytes output.new
        ≡ string_bytes output.old ++ through_break mark.now text.now start (B.meaning b.now)) }
    ensures range_end { IfOk result (λ end. end ≡ end_of (B.meaning b.now)) }
    ensures begins_as_before { StartsWith (string_bytes output.new) (string_bytes output.old) }
{
    let (begin, end) = b.range().unwrap();
    output.push_str(&text[start..begin])?;
    output.push_str(b.before())?;
    output.push_str(mark)?;
    output.push_str(b.after())?;
    Ok(end)
}

// Appends the segments of a text at breaks that fit it, each but the last with the mark after it.
fn push_segments<B: Break>(
    output: &mut String,
    text: &str,
    breaks: &[B],
    mark: &str,
) -> Result<(), AllocError>
    requires { Fits text.now (map B.meaning breaks.now) }
    ensures appended { OnOk result (string_bytes output.new
        ≡ string_bytes output.old ++ marked_word mark.now text.now (map B.meaning breaks.now)) }
    ensures begins_as_before { StartsWith (string_bytes output.new) (string_bytes output.old) }
{
    let mut start = 0;
    for b in breaks {
        start = push_break(output, text, start, b, mark)?;
    }
    output.push_str(&text[start..])
}

/// Appends the segments of a text at breaks that fit it to a `String`, each but the last with the mark after it.
///
/// The breaks must fit the text; [`Word::fits`] tests that. An error says that memory was refused; the `String` is then
/// unchanged.
///
/// ```text
/// if Word::fits("hyphenation", &breaks) {                                // breaks: 2, 6, 7
///     push_marked_text(&mut page, "hyphenation", &breaks, "·")?;         // hy·phen·a·tion
/// }
/// ```
pub fn push_marked_text<B: Break>(
    output: &mut String,
    text: &str,
    breaks: &[B],
    mark: &str,
) -> Result<(), AllocError>
    requires fit { Fits text.now (map B.meaning breaks.now) }
    ensures adds { OnOk result (string_bytes output.new
        ≡ string_bytes output.old ++ marked_word mark.now text.now (map B.meaning breaks.now)) }
    ensures unchanged_on_error { OnErr result (string_bytes output.new ≡ string_bytes output.old) }
{
    let before = output.len();
    match push_segments(output, text, breaks, mark) {
        Ok(()) => Ok(()),
        Err(error) => {
            output.truncate(before);
            Err(error)
        }
    }
}

/// Appends the segments of a word to a `String`, each but the last with the mark after it.
///
/// An error says that memory was refused; the `String` is then unchanged.
///
/// ```text
/// let word = dictionary.hyphenate(alloc, "hyphenation")?;      // breaks: 2, 6, 7
/// push_marked(&mut page, &word, "·")?;                         // hy·phen·a·tion
/// ```
pub fn push_marked<B: Break>(
    output: &mut String,
    word: &Word<'_, B>,
    mark: &str,
) -> Result<(), AllocError>
    ensures adds { OnOk result (string_bytes output.new
        ≡ string_bytes output.old ++ marked_word mark.now word.now.text.now (map B.meaning word.now.breaks.items)) }
    ensures unchanged_on_error { OnErr result (string_bytes output.new ≡ string_bytes output.old) }
{
    push_marked_text(output, word.text, &word.breaks, mark)
}
