//! Examples: lines of dictionary texts with what they spell, and the first test that bad ones fail.

ghost use Rattle.std.specs.Prelude.{◌≡◌, [], ◌∷◌, codes, map, Some, None};
ghost use Rattle.hyphenation_breaks.specs.Break.{break_at};
ghost use Rattle.hyphenation_grammar.specs.Private.Examples.{FailFirst, bad_changes, bad_values, changed, entry};
ghost use Rattle.hyphenation_grammar.specs.Private.Examples.{extended_first, first_cause, standard_first};
ghost use Rattle.hyphenation_grammar.specs.Private.Examples.{standard_second};
ghost use Rattle.hyphenation_grammar.specs.Items.{pattern_of_line, exception_of_line};
ghost use Rattle.hyphenation_grammar.specs.Judging.{refusal_of};
ghost use Rattle.hyphenation_grammar.specs.declared.form.Kind.TheVariants.{Standard};
ghost use Rattle.hyphenation_grammar.specs.declared.form.Version.TheVariants.{First, Second};
ghost use Rattle.hyphenation_grammar.specs.declared.Cause.TheVariants.{Change, Header, NoLetters, Number};
ghost use Rattle.hyphenation_grammar.specs.declared.Cause.TheVariants.{Pattern, Place, Token, Value};

// A change has all five parts, belongs to a value or a listed place, and keeps within the key or the word.
fn changes()
    ensures refused { FailFirst extended_first (Some Change) bad_changes }
    ensures number_first { FailFirst extended_first (Some Number) (codes "e ab x,0" ∷ []) }
    ensures place_first { FailFirst extended_first (Some Place) (codes "e ab 3,0,0" ∷ []) }
    ensures accepted { FailFirst extended_first None (codes "p a1b 1,1,1,0,\\e" ∷ codes "e ab 1,1,1,1,xy 2" ∷ []) }
{}

// A pattern's value carries the change that is listed at its place. All after the fourth comma is the substitution.
fn carried()
    ensures pattern { pattern_of_line First (codes "p a1b 1,1,0,1,x")
        ≡ Some (codes "ab", entry 1 1 (Some (changed 1 0 (codes "x") 1)) ∷ []) }
    ensures commas { exception_of_line (codes "e ab 1,1,1,2,a,b")
        ≡ Some (codes "ab", break_at 1 (Some (changed 1 1 (codes "a,b") 2)) ∷ []) }
    ensures plain { pattern_of_line First (codes "p s1szo0") ≡ Some (codes "sszo", entry 1 1 None ∷ []) }
{}

// In the second version a number from 10 to 255 in braces is one value, and braces are escaped as letters.
fn braces()
    ensures value { pattern_of_line Second (codes "p a{255}b") ≡ Some (codes "ab", entry 1 255 None ∷ []) }
    ensures letters { pattern_of_line Second (codes "p \\{1\\}") ≡ Some (codes "{}", entry 1 1 None ∷ []) }
    ensures bad_values { FailFirst standard_second (Some Value) bad_values }
    ensures two_values { FailFirst standard_second (Some Pattern) (codes "p a{10}{11}b" ∷ codes "p a1{10}b" ∷ []) }
    ensures no_letters { FailFirst standard_second (Some NoLetters) (codes "p {10}" ∷ []) }
    ensures bad_token { FailFirst standard_second (Some Token) (codes "e a\\{b" ∷ []) }
    ensures accepted { FailFirst standard_second None
        (codes "p a{10}b" ∷ codes "p \\{1\\}" ∷ codes "e {b}" ∷ []) }
    ensures version_1 { map (first_cause standard_first) (codes "p a{10}b" ∷ codes "p \\{1" ∷ codes "p {1}" ∷ [])
        ≡ Some Pattern ∷ Some Token ∷ None ∷ [] }
    ensures no_version_3 { refusal_of Standard (codes "hyphenation 3 standard") ≡ Some (1, Header) }
{}
