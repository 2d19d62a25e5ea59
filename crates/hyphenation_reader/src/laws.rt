//! Laws of accepted texts, for both kinds and both versions. Each function does nothing: its contract is a law, which
//! the check proves.

ghost use Rattle.hyphenation_reader.specs.Laws.{SpeltIsSound, KeysAreSpelt, WordsAreSpelt, OrderMeansNothing};
ghost use Rattle.hyphenation_reader.specs.Laws.{AcceptedInAnyOrder};

use hyphenation_breaks::extended::Subregion;
use hyphenation_breaks::laws::{boundary_is_of_chars, entries_in_order};
use hyphenation_grammar::laws::{parts_are_text, spelt_is_text};

/// A line that fails no test by itself spells a key with entries, or a word with breaks, that a dictionary may hold.
pub fn spelt_is_sound()
    ensures { SpeltIsSound }
{
    parts_are_text();
    spelt_is_text();
    boundary_is_of_chars();
    entries_in_order::<Option<Subregion>>();
}

/// A key has exactly the entries that some `p` line spells for it, and a word exactly the breaks that some `e` line
/// lists. Nothing else is a key or an exception.
pub fn spelt_by_some_line<C, B>()
    ensures patterns { KeysAreSpelt C B }
    ensures exceptions { WordsAreSpelt C B }
{}

/// Two accepted texts with the same lines after the third, in any order, give the same dictionary.
pub fn order_means_nothing<C, B>()
    ensures { OrderMeansNothing C B }
{}

/// An accepted text stays accepted when its lines after the third are put in another order.
pub fn accepted_in_any_order()
    ensures { AcceptedInAnyOrder }
{}
