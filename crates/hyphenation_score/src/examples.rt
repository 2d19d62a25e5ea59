//! Worked examples of values and winners, proved by computation.

ghost use Rattle.std.specs.Prelude.{◌≡◌, [], ◌∷◌, codes, Some, None};
ghost use Rattle.hyphenation_score.specs.Private.Examples.{english_patterns, early_and_late, short_and_long, dotted_patterns, changes_won};
ghost use Rattle.hyphenation_score.specs.Scoring.{values};

// In `firkin` the 5 of `r5kin` is above the 2 of `r2k`, and the 2 of `k2in.` above the 1 of `k1in`.
fn firkin()
    ensures { values english_patterns (codes "firkin") ≡ 0 ∷ 2 ∷ 5 ∷ 2 ∷ 0 ∷ [] }
{}

// In `firkins` the key of `k2in.` does not occur, since the word goes on.
fn firkins()
    ensures { values english_patterns (codes "firkins") ≡ 0 ∷ 2 ∷ 5 ∷ 1 ∷ 0 ∷ 0 ∷ [] }
{}

// In `cabd` both `a1b` and `ca1bd` give 1 at place 2, and `ca1bd` wins, since it starts first.
fn cabd()
    ensures { changes_won early_and_late (codes "cabd") ≡ None ∷ Some 9 ∷ None ∷ [] }
{}

// In `abd` both `a1b` and `a1bd` give 1 at place 1, and `a1b` wins, since it is shorter.
fn abd()
    ensures { changes_won short_and_long (codes "abd") ≡ Some 7 ∷ None ∷ [] }
{}

// In `a.bcd` the dot of `.b1c` occurs at the word's own dot.
fn dot_in_a_word()
    ensures { values dotted_patterns (codes "a.bcd") ≡ 0 ∷ 0 ∷ 1 ∷ 0 ∷ [] }
{}

// The empty word and a word of one byte have no place.
fn short_words()
    ensures none { values english_patterns (codes "") ≡ [] }
    ensures one { values english_patterns (codes "k") ≡ [] }
{}
