//! Discretionary breaks, as a typesetter sets them: the letters of a word may change at a break.

ghost use Rattle.std.specs.Prelude.{◌≡◌, IfOk, map};
ghost use Rattle.hyphenation_segments.specs.Fits.{BreakFitsAfter};
ghost use Rattle.callers.specs.Discretionaries.{parts_at, parts_of};

use hyphenation::hyphenator::{Break, Word};
use std::alloc::{AllocError, Global};

/// One break of a word, as it is set.
///
/// If the line is broken there, `before` ends it and `after` begins the next line. Else `unbroken` is set.
#[derive(Drop)]
pub struct Discretionary<'t> {
    pub before: String,
    pub after: String,
    pub unbroken: &'t str,
}

// The discretionary of a break that lies in a text.
fn set_at<'t, B: Break>(
    alloc: Global,
    text: &'t str,
    b: &B,
    hyphen: &str,
) -> Result<Discretionary<'t>, AllocError>
    requires { BreakFitsAfter text.now 0 0 (B.meaning b.now) }
    ensures { IfOk result (λ set. parts_of set ≡ parts_at hyphen.now text.now (B.meaning b.now)) }
{
    let (begin, end) = b.range().unwrap();
    let mut before = String::from_str(alloc, b.before())?;
    before.push_str(hyphen)?;
    let after = String::from_str(alloc, b.after())?;
    Ok(Discretionary {
        before,
        after,
        unbroken: &text[begin..end],
    })
}

/// Returns the discretionaries of a word's breaks, in their order. The only error is that memory was refused.
///
/// ```text
/// let word = dictionary.hyphenate(alloc, "asszonnyal")?;      // Hungarian: asz-szony-nyal
/// let all = discretionaries(alloc, &word, "-")?;              // all[0]: before "sz-", after "sz", unbroken "ssz"
/// ```
pub fn discretionaries<'t, B: Break>(
    alloc: Global,
    word: &Word<'t, B>,
    hyphen: &str,
) -> Result<Vec<Discretionary<'t>>, AllocError>
    ensures { IfOk result (λ all.
        map parts_of all.items ≡ map (parts_at hyphen.now word.now.text.now) (map B.meaning word.now.breaks.items)) }
{
    let mut all = Vec::new(alloc);
    for b in &word.breaks {
        all.push(set_at(alloc, word.text, b, hyphen)?)?;
    }
    Ok(all)
}
