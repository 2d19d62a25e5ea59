//! Laws of values and winners, in terms of single keys.
//!
//! Each function here does nothing: its contract is a law, which the check proves.

ghost use Rattle.hyphenation_score.specs.Laws.{ValueIsGreatest, ValueIsBorne, WinnerIsMissing, WinnerIsFirst, FirstIsWinner, ValuesAreOneLess};
ghost use Rattle.hyphenation_score.specs.Laws.{ValuesAreOfPlaces, WinnersAreOneLess, WinnersAreOfPlaces, BestOfAllWins, WinnerHasValue};
ghost use Rattle.hyphenation_score.specs.Laws.{RanksShowChanges, ScoresHaveValues, SameKeysSameValues, SameKeysSameWinners};

/// A place's value is at least each value that bears on it.
pub fn value_is_greatest<C>()
    ensures { ValueIsGreatest C }
{}

/// A place's value is 0, or one that bears on it.
pub fn value_is_borne<C>()
    ensures { ValueIsBorne C }
{}

/// A place has no winner exactly where its value is 0.
pub fn winner_is_missing<C>()
    ensures { WinnerIsMissing C }
{}

/// A winner gives the place its value. Among the entries that give it the winner's key starts first; among those that
/// start there it ends first.
pub fn winner_is_first<C>()
    ensures { WinnerIsFirst C }
{}

/// An entry is the winner if its value is above 0 and it comes first among those that give the place its value. Its key
/// must have no other entry at the place.
pub fn first_is_winner<C>()
    ensures { FirstIsWinner C }
{}

/// The values and the winners of a word are in the order of its places, which are one fewer than its bytes.
pub fn places_are_in_order<C>()
    ensures values_length { ValuesAreOneLess C }
    ensures values_at { ValuesAreOfPlaces C }
    ensures winners_length { WinnersAreOneLess C }
    ensures winners_at { WinnersAreOfPlaces C }
{}

/// The best of all pairs of a start and an end gives the winner, even if keys are met by their ends.
pub fn best_of_all_wins<C>()
    ensures { BestOfAllWins C }
{}

/// The value of a place is that of its winner; it is 0 without a winner.
pub fn winner_has_value<C>()
    ensures { WinnerHasValue C }
{}

/// The values of a word's scores are the word's values.
pub fn scores_have_values<C>()
    ensures { ScoresHaveValues C }
{}

/// The rank of a place in an extended dictionary is twice the place's value, or one more. In the first case the winner carries
/// no change.
pub fn ranks_show_changes()
    ensures { RanksShowChanges }
{}

/// Patterns with equal keys and entries give equal values and equal winners.
pub fn same_keys_give_the_same<C>()
    ensures values { SameKeysSameValues C }
    ensures winners { SameKeysSameWinners C }
{}
