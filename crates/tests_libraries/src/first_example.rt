//! The first example of docs/CALLING.md, to the letter.

use hyphenation::{Hyphenator, Load, Standard};
use std::test::Fail;

#[test]
fn a_word_is_broken(rt: HostRuntime) -> Result<(), Fail> {
    let mut text =
        &b"hyphenation 1 standard\nlanguage en-us\nminima 2 3\ne hyphenation 2 6 7\n"[..];
    let dictionary = Standard::any_from_reader(rt.alloc(), &mut text)?;
    let word = dictionary.hyphenate(rt.alloc(), "Hyphenation")?;
    assert_eq!(rt; word.breaks.as_slice(), [2, 6, 7].as_slice());
    let mut line = String::new(rt.alloc());
    for segment in word {
        line.push_str(segment?.as_str())?;
    }
    assert_eq!(rt; line.as_str(), "Hy-phen-a-tion");
    Ok(())
}
