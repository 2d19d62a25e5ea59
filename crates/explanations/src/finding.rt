//! The facts about a word, and which of them decides.

ghost use Rattle.std.specs.Prelude.{◌≡◌, map, option_copied, IfOk};
ghost use Rattle.std.specs.FinMap as finite;
ghost use Rattle.std.specs.String.{string_bytes};
ghost use Rattle.hyphenation_breaks.specs.Dictionary.{entries_of_keys};
ghost use Rattle.hyphenation_hyphenator.specs.Boundaries.{boundaries};
ghost use Rattle.hyphenation_hyphenator.specs.Folding.{fold_case};
ghost use Rattle.hyphenation_hyphenator.specs.Opportunities.{rules_of};
ghost use Rattle.hyphenation_hyphenator.specs.SoftHyphens.{soft_hyphens};
ghost use Rattle.hyphenation_score.specs.Scoring.{frame, winners};
ghost use Rattle.explanations.specs.Decisions.{decision_by, decision_from};
ghost use Rattle.explanations.specs.Private.Knowing.{AreFactsOf};
ghost use Rattle.explanations.specs.Rows.{row_of, AreAllOccurrences};

use crate::facts::{Decision, Explanation};
use crate::pattern_rows::rows;
use hyphenation_breaks::breaks::Break;
use hyphenation_breaks::entry::Payload;
use hyphenation_dictionary::dictionary::Dictionary;
use hyphenation_hyphenator::case_folding::refold;
use hyphenation_hyphenator::hyphenator::{boundaries_of, soft_hyphen_indices};
use hyphenation_score::{LookUps, winners};
use std::alloc::{AllocError, Global};

// Returns the places of a word's soft hyphens, or the empty list. The only error is out of memory.
fn soft_hyphens_of(alloc: Global, word: &str) -> Result<Vec<usize>, AllocError>
    ensures { IfOk result (λ places. places.items ≡ soft_hyphens word.now) }
{
    match soft_hyphen_indices(alloc, word)? {
        Some(places) => Ok(places),
        None => Ok(Vec::new(alloc)),
    }
}

// Returns the fact that decides, by the soft hyphens, the boundaries and the listed breaks of a word.
fn decide<B>(
    soft_hyphens: &[usize],
    bounds: Option<(usize, usize)>,
    listed: Option<&[B]>,
) -> Decision
    ensures { result ≡ decision_from soft_hyphens.now bounds (option_copied listed.entry) }
{
    if !soft_hyphens.is_empty() {
        Decision::SoftHyphens
    } else if bounds.is_none() {
        Decision::TooShort
    } else if listed.is_some() {
        Decision::Exception
    } else {
        Decision::Patterns
    }
}

// Returns the facts about the breaks of a word as written, which is folded to this. The only error is out of memory.
fn facts_of<'d, C: Payload, B: Break>(
    alloc: Global,
    dictionary: &'d Dictionary<C, B>,
    word: &str,
    folded: &str,
) -> Result<Explanation<'d, C, B>, AllocError>
    requires { folded.now ≡ fold_case word.now }
    ensures { IfOk result (λ e. AreFactsOf C.change_of B.meaning dictionary.now word.now e) }
{
    let soft_hyphens = soft_hyphens_of(alloc, word)?;
    let framed = format!(in alloc; ".{folded}.")?;
    let bounds = boundaries_of(dictionary.minima(), folded);
    let listed = dictionary.listed(folded);
    let decision = decide(&soft_hyphens, bounds, listed);
    let rows = rows(alloc, dictionary, &framed, &mut LookUps::new())?;
    let winners = winners(alloc, dictionary, folded, &mut LookUps::new())?;
    Ok(Explanation {
        decision,
        soft_hyphens,
        folded: String::from_str(alloc, folded)?,
        framed,
        bounds,
        listed,
        rows,
        winners,
    })
}

/// Returns the facts about the breaks of a word as written, by a dictionary of either kind.
///
/// The only error is out of memory.
///
/// ```text
/// let facts = explain(alloc, &dictionary, "Firkins")?;
/// facts.decision           // Decision::Patterns
/// facts.framed.as_str()    // ".firkins."
/// facts.rows.len()         // 5: the rows drawn above
/// ```
pub fn explain<'d, C: Payload, B: Break>(
    alloc: Global,
    dictionary: &'d Dictionary<C, B>,
    word: &str,
) -> Result<Explanation<'d, C, B>, AllocError>
    ensures decision { IfOk result (λ e.
        e.decision ≡ decision_by (rules_of C.change_of B.meaning dictionary.now) word.now) }
    ensures soft_hyphens { IfOk result (λ e. e.soft_hyphens.items ≡ soft_hyphens word.now) }
    ensures folded { IfOk result (λ e. string_bytes e.folded ≡ fold_case word.now) }
    ensures framed { IfOk result (λ e. string_bytes e.framed ≡ frame (fold_case word.now)) }
    ensures bounds { IfOk result (λ e.
        e.bounds ≡ boundaries dictionary.now.left dictionary.now.right (fold_case word.now)) }
    ensures listed { IfOk result (λ e.
        option_copied e.listed ≡ finite.get dictionary.now.exceptions (fold_case word.now)) }
    ensures rows { IfOk result (λ e.
        AreAllOccurrences (entries_of_keys dictionary.now) (frame (fold_case word.now)) (map row_of e.rows.items)) }
    ensures winners { IfOk result (λ e.
        map option_copied e.winners.items ≡ winners (entries_of_keys dictionary.now) (fold_case word.now)) }
{
    let (folded, _shifts) = refold(alloc, word)?;
    let facts = facts_of(alloc, dictionary, word, folded.as_str())?;
    Ok(facts)
}
