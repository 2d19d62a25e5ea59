//! Which dictionaries have a table.

use crate::support::dictionaries::load;
use crate::support::expect_equal_in;
use any_dictionary::AnyDictionary;
use hyphenation_dictionary::search::patterns_of;
use std::alloc::Global;
use std::test::Fail;

// Each row has its sentence, the text of a dictionary, and whether the dictionary has a table.
const HAS_TABLE: &[(&str, &str, bool)] = &[
    (
        "few keys",
        "hyphenation 1 standard\nlanguage x\nminima 0 0\np .fi2\np i2r\np r2k\np r5kin\np k1in\np k2in.\n",
        true,
    ),
    (
        "few keys, of an extended dictionary",
        "hyphenation 1 extended\nlanguage hu\nminima 0 0\np .fi2\np i2r\np r2k\np r5kin\np k1in\np k2in.\n",
        true,
    ),
    (
        "no keys",
        "hyphenation 1 standard\nlanguage x\nminima 0 0\n",
        true,
    ),
    (
        "no keys, of an extended dictionary",
        "hyphenation 1 extended\nlanguage hu\nminima 0 0\n",
        true,
    ),
    (
        "a value 15 bytes before its key's end",
        "hyphenation 1 standard\nlanguage x\nminima 0 0\np a1aaaaaaaaaaaaaaa\n",
        true,
    ),
    (
        "a value 15 bytes before its key's end, of an extended dictionary",
        "hyphenation 1 extended\nlanguage hu\nminima 0 0\np a1aaaaaaaaaaaaaaa\n",
        true,
    ),
    (
        "a value 16 bytes before its key's end",
        "hyphenation 1 standard\nlanguage x\nminima 0 0\np a1aaaaaaaaaaaaaaaa\n",
        false,
    ),
    (
        "a value 16 bytes before its key's end, of an extended dictionary",
        "hyphenation 1 extended\nlanguage hu\nminima 0 0\np a1aaaaaaaaaaaaaaaa\n",
        false,
    ),
    (
        "a value before a key of 15 bytes",
        "hyphenation 1 standard\nlanguage x\nminima 0 0\np 1aaaaaaaaaaaaaaa\n",
        true,
    ),
    (
        "a value before a key of 15 bytes, of an extended dictionary",
        "hyphenation 1 extended\nlanguage hu\nminima 0 0\np 1aaaaaaaaaaaaaaa\n",
        true,
    ),
    (
        "a value before a key of 16 bytes",
        "hyphenation 1 standard\nlanguage x\nminima 0 0\np 1aaaaaaaaaaaaaaaa\n",
        false,
    ),
    (
        "a value before a key of 16 bytes, of an extended dictionary",
        "hyphenation 1 extended\nlanguage hu\nminima 0 0\np 1aaaaaaaaaaaaaaaa\n",
        false,
    ),
    (
        "a value with a change 15 bytes before its key's end",
        "hyphenation 1 extended\nlanguage hu\nminima 1 1\np a1aaaaaaaaaaaaaaa 1,1,0,1,x\n",
        true,
    ),
    (
        "a value with a change 16 bytes before its key's end",
        "hyphenation 1 extended\nlanguage hu\nminima 1 1\np a1aaaaaaaaaaaaaaaa 1,1,0,1,x\n",
        false,
    ),
    (
        "the greatest value of all",
        "hyphenation 2 standard\nlanguage en-us\nminima 1 1\np a{255}b\n",
        true,
    ),
    (
        "the greatest value of an extended dictionary with a table, whose rank is 254",
        "hyphenation 2 extended\nlanguage en-us\nminima 1 1\np a{127}b\n",
        true,
    ),
    (
        "the same value with a change, whose rank is 255",
        "hyphenation 2 extended\nlanguage en-us\nminima 1 1\np a{127}b 1,1,0,1,x\n",
        true,
    ),
    (
        "a value whose rank would be 256",
        "hyphenation 2 extended\nlanguage en-us\nminima 1 1\np a{128}b\n",
        false,
    ),
    (
        "a value whose rank would be 257",
        "hyphenation 2 extended\nlanguage en-us\nminima 1 1\np a{128}b 1,1,0,1,x\n",
        false,
    ),
];

// Whether the dictionary of a text has a table.
fn has_table(alloc: Global, text: &str) -> Result<bool, Fail> {
    let dictionary: AnyDictionary = load(alloc, text)?;
    Ok(match &dictionary {
        AnyDictionary::Standard(standard) => patterns_of(standard).1.is_some(),
        AnyDictionary::Extended(extended) => patterns_of(extended).1.is_some(),
    })
}

#[test]
fn a_dictionary_whose_values_are_near_their_ends_has_a_table(rt: HostRuntime) -> Result<(), Fail> {
    for (shows, text, has) in HAS_TABLE {
        expect_equal_in(*shows, &has_table(rt.alloc(), text)?, has)?;
    }
    Ok(())
}
