//! Laws of breaks that fit, of exceptions that are added and removed, and of texts with an empty mark.
//!
//! Each function does nothing, and its contract is one law.

ghost use Rattle.std.specs.Prelude.{◌≡◌, List, [], ℕ, IsUtf8};
ghost use Rattle.hyphenation_breaks.specs.Break.{plain_break};
ghost use Rattle.hyphenation_hyphenator.specs.Hyphenated.{hyphenated_text};
ghost use Rattle.hyphenation_hyphenator.specs.Laws.{FitWhereAscending, RemovalUndoes, KeepsOneMore};
ghost use Rattle.hyphenation_hyphenator.specs.Opportunities.{no_change, rules_of, standard_rules, all_breaks_of};

use hyphenation_dictionary::dictionary::Standard;
use hyphenation_score::laws::{value_is_borne, winner_is_first};
use hyphenation_segments::iter::laws::segments_join;
use word_pieces::laws::pieces_are_slices;

/// Plain breaks fit a text exactly where their places ascend strictly on its character boundaries.
pub fn plain_breaks_fit_where_ascending()
    ensures { FitWhereAscending }
{}

/// Adding a word that is no exception and removing it again leaves the exceptions as they were, for breaks of any type.
pub fn removal_undoes_an_addition<B>()
    ensures { RemovalUndoes B }
{}

/// One more break after others is kept exactly where its range meets three conditions.
///
/// It lies in the folded word, holds no character whose number of bytes the folding changes, and begins after all
/// ranges that are kept. Which of the others are kept does not depend on it.
pub fn one_more_break_is_kept()
    ensures { KeepsOneMore }
{}

/// With an empty mark, hyphenating any text by this standard dictionary leaves it as it is.
pub fn empty_mark_leaves_the_text(dictionary: &Standard)
    ensures { (text : List ℕ) → IsUtf8 text
        → hyphenated_text (all_breaks_of (standard_rules dictionary.now)) [] text ≡ text }
{
    dictionary.invariant();
    value_is_borne::<()>();
    winner_is_first::<()>();
    segments_join();
    pieces_are_slices();
}
