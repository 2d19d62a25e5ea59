//! Dictionaries whose kind is known only from their texts: edited and written, and asked for the places of breaks.

use crate::support::dictionaries::load;
use crate::support::expect;
use any_dictionary::AnyDictionary;
use hyphenation::Load;
use std::alloc::Global;
use std::test::Fail;

const STANDARD: &str = "hyphenation 1 standard\nlanguage en-us\nminima 2 3\np y1p\ne other 2\n";

const EXTENDED: &str =
    "hyphenation 1 extended\nlanguage hu\nminima 2 2\ne asszonnyal 2,1,2,2,szsz 6,1,2,2,nyny\ne other 2\n";

// Whether an edit of the dictionary of a text is as good as is wanted, and leaves a dictionary that is written so.
fn is_edited(
    alloc: Global,
    text: &str,
    edit: &str,
    good: bool,
    wanted: &str,
) -> Result<bool, Fail> {
    let mut dictionary: AnyDictionary = load(alloc, text)?;
    let is_good = dictionary.edit(alloc, edit)?;
    let written = dictionary.to_text(alloc)?;
    Ok(is_good == good && written.as_slice() == wanted.as_bytes())
}

// Each row has its sentence, a text, an edit, whether it is good, and the text that is written after it.
const EDITED: &[(&str, &str, &str, bool, &str)] = &[
    (
        "a word is added",
        STANDARD,
        "+again 2",
        true,
        "hyphenation 1 standard\nlanguage en-us\nminima 2 3\np y1p\ne again 2\ne other 2\n",
    ),
    (
        "a word is removed",
        STANDARD,
        "-other",
        true,
        "hyphenation 1 standard\nlanguage en-us\nminima 2 3\np y1p\n",
    ),
    (
        "the empty word is removed, and another one stays",
        "hyphenation 1 standard\nlanguage en-us\nminima 2 3\ne \\e\ne other 2\n",
        "-\\e",
        true,
        "hyphenation 1 standard\nlanguage en-us\nminima 2 3\ne other 2\n",
    ),
    (
        "a bad edit changes nothing",
        STANDARD,
        "+other 1,1,0,1,x",
        false,
        STANDARD,
    ),
    (
        "an extended one may take a change",
        EXTENDED,
        "+other 1,1,0,1,x",
        true,
        "hyphenation 1 extended\nlanguage hu\nminima 2 2\ne asszonnyal 2,1,2,2,szsz 6,1,2,2,nyny\ne other 1,1,0,1,x\n",
    ),
    (
        "a change before a plain place is listed as it is written",
        EXTENDED,
        "+asszonnyal 2,1,2,2,szsz 8",
        true,
        "hyphenation 1 extended\nlanguage hu\nminima 2 2\ne asszonnyal 2,1,2,2,szsz 8\ne other 2\n",
    ),
    (
        "an extended one loses a word",
        EXTENDED,
        "-asszonnyal",
        true,
        "hyphenation 1 extended\nlanguage hu\nminima 2 2\ne other 2\n",
    ),
];

#[test]
fn an_edit_changes_the_exceptions_where_it_is_good(rt: HostRuntime) -> Result<(), Fail> {
    for (shows, text, edit, good, wanted) in EDITED {
        expect(is_edited(rt.alloc(), text, edit, *good, wanted)?, *shows)?;
    }
    Ok(())
}

// Whether a word has these places of breaks, or with `plain` these of breaks that change no letters. The list that takes
// them had those of another word.
fn has_places(
    alloc: Global,
    text: &str,
    plain: bool,
    word: &str,
    wanted: &[usize],
) -> Result<bool, Fail> {
    let dictionary: AnyDictionary = load(alloc, text)?;
    let mut places = vec![in alloc; 1, 9]?;
    if plain {
        dictionary.plain_places_into(alloc, word, &mut places)?;
    } else {
        dictionary.places_into(alloc, word, &mut places)?;
    }
    Ok(places.as_slice() == wanted)
}

// Each row has its sentence, a text, whether only plain breaks count, a word, and its places.
const PLACES: &[(&str, &str, bool, &str, &[usize])] = &[
    (
        "a pattern of a standard one",
        STANDARD,
        false,
        "typing",
        &[2],
    ),
    ("it is plain", STANDARD, true, "typing", &[2]),
    (
        "an exception of a standard one",
        STANDARD,
        false,
        "other",
        &[2],
    ),
    (
        "a break that changes letters",
        EXTENDED,
        false,
        "asszonnyal",
        &[2, 6],
    ),
    ("it is no plain one", EXTENDED, true, "asszonnyal", &[]),
    (
        "a plain break of an extended one",
        EXTENDED,
        true,
        "other",
        &[2],
    ),
];

#[test]
fn a_list_has_the_places_of_one_word_only(rt: HostRuntime) -> Result<(), Fail> {
    for (shows, text, plain, word, wanted) in PLACES {
        expect(has_places(rt.alloc(), text, *plain, word, wanted)?, *shows)?;
    }
    Ok(())
}
