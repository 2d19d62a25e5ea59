//! The paths at which the dictionary of a language is looked for, and its list of exceptions.

ghost use Rattle.std.specs.Prelude.{◌≡◌, ◌∷◌, ◌++◌, [], IfOk, OnOk, map};
ghost use Rattle.std.specs.String.{string_bytes};
ghost use Rattle.hyphenation_breaks.specs.Borrowed.{texts_now};
ghost use Rattle.language_search.specs.Paths.{exception_paths_of, exception_paths_of_code, paths_by_code, paths_by_tag};
ghost use Rattle.language_search.specs.declared.paths.Sought.TheVariants.{Dictionary, Exceptions};
ghost use Rattle.language_search.specs.Paths.{paths_in, paths_of, paths_of_code, paths_of_name};

use crate::names::usual_variant;
use crate::tags::codes_of;
use hyphenation_breaks::language::Language;
use std::alloc::{AllocError, Global};

/// The sort of file that is looked for.
#[derive(Clone, Copy, Debug)]
pub enum Sought {
    /// A dictionary text.
    Dictionary,
    /// A list of exceptions.
    Exceptions,
}

// Adds a path.
fn push(paths: &mut Vec<String>, path: String) -> Result<(), AllocError>
    ensures { OnOk result (map string_bytes paths.new.items ≡ map string_bytes paths.old.items ++ string_bytes path ∷ []) }
{
    paths.push(path)?;
    Ok(())
}

// Adds the paths of a name's dictionaries in a folder.
fn push_dictionaries(
    alloc: Global,
    folder: &str,
    name: &str,
    paths: &mut Vec<String>,
) -> Result<(), AllocError>
    ensures { OnOk result (map string_bytes paths.new.items
        ≡ map string_bytes paths.old.items ++ paths_in Dictionary name.now folder.now) }
{
    push(paths, format!(in alloc; "{folder}/{name}.txt")?)?;
    push(paths, format!(in alloc; "{folder}/{name}.extended.txt")?)?;
    Ok(())
}

// Adds the path of a name's list of exceptions in a folder.
fn push_list(
    alloc: Global,
    folder: &str,
    name: &str,
    paths: &mut Vec<String>,
) -> Result<(), AllocError>
    ensures { OnOk result (map string_bytes paths.new.items
        ≡ map string_bytes paths.old.items ++ paths_in Exceptions name.now folder.now) }
{
    push(paths, format!(in alloc; "{folder}/{name}.exceptions")?)
}

// Adds the paths of a name in a folder.
fn push_in_folder(
    alloc: Global,
    sought: Sought,
    folder: &str,
    name: &str,
    paths: &mut Vec<String>,
) -> Result<(), AllocError>
    ensures { OnOk result (map string_bytes paths.new.items
        ≡ map string_bytes paths.old.items ++ paths_in sought name.now folder.now) }
{
    match sought {
        Sought::Dictionary => push_dictionaries(alloc, folder, name, paths),
        Sought::Exceptions => push_list(alloc, folder, name, paths),
    }
}

// Adds the paths of a name in each folder.
fn push_name(
    alloc: Global,
    sought: Sought,
    folders: &[&str],
    name: &str,
    paths: &mut Vec<String>,
) -> Result<(), AllocError>
    ensures { OnOk result (map string_bytes paths.new.items
        ≡ map string_bytes paths.old.items ++ paths_of_name sought (texts_now folders.now) name.now) }
{
    for folder in folders {
        push_in_folder(alloc, sought, folder, name, paths)?;
    }
    Ok(())
}

// Adds the paths of each name of a code.
fn push_code(
    alloc: Global,
    sought: Sought,
    folders: &[&str],
    code: &str,
    paths: &mut Vec<String>,
) -> Result<(), AllocError>
    ensures { OnOk result (map string_bytes paths.new.items
        ≡ map string_bytes paths.old.items ++ paths_by_code sought (texts_now folders.now) code.now) }
{
    push_name(alloc, sought, folders, code, paths)?;
    if let Some(name) = usual_variant(code) {
        push_name(alloc, sought, folders, name, paths)?;
    }
    Ok(())
}

// Returns the paths of a code.
fn paths_by_code(
    alloc: Global,
    sought: Sought,
    folders: &[&str],
    language: &Language,
) -> Result<Vec<String>, AllocError>
    ensures { IfOk result (λ paths. map string_bytes paths.items ≡ paths_by_code sought (texts_now folders.now) language.now) }
{
    let mut paths = Vec::new(alloc);
    push_code(alloc, sought, folders, language.code(), &mut paths)?;
    Ok(paths)
}

// Returns the paths of a tag.
fn paths_by_tag(
    alloc: Global,
    sought: Sought,
    folders: &[&str],
    tag: &str,
) -> Result<Vec<String>, AllocError>
    ensures { IfOk result (λ paths. map string_bytes paths.items ≡ paths_by_tag sought (texts_now folders.now) tag.now) }
{
    let languages = codes_of(alloc, tag)?;
    let mut paths = Vec::new(alloc);
    for language in &languages {
        push_code(alloc, sought, folders, language.code(), &mut paths)?;
    }
    Ok(paths)
}

/// Returns the paths at which the dictionary of a language is looked for only by its own code. They are those of each
/// of its names in each folder, with both endings. The error says that memory was refused.
///
/// ```text
/// paths_of_code(alloc, &["a"], &Language::from_code("sr").unwrap())?
/// // a/sr.txt, a/sr.extended.txt, a/sr-cyrl.txt, a/sr-cyrl.extended.txt
/// ```
pub fn paths_of_code(
    alloc: Global,
    folders: &[&str],
    language: &Language,
) -> Result<Vec<String>, AllocError>
    ensures { IfOk result (λ paths. map string_bytes paths.items ≡ paths_of_code (texts_now folders.now) language.now) }
{
    paths_by_code(alloc, Sought::Dictionary, folders, language)
}

/// Returns the paths at which the dictionary of a language is looked for, in their order. The first one at which there is
/// a file has it.
///
/// A tag such as `de-CH-1901` is read in small letters, and `_` as `-`. First come the paths of the whole tag, then
/// those of the tag without its last part, and so on: `de-ch-1901`, `de-ch`, `de`. Each of these that is the code of a
/// language is a name, and then its usual variant, if it has one. The variants are `de-1996` for `de`, `el-monoton` for
/// `el`, `en-us` for `en`, `mn-cyrl` for `mn`, `sh-latn` for `sh`, and `sr-cyrl` for `sr`. A name is looked for in each
/// folder, in their order, with the ending `.txt` of a standard dictionary and then `.extended.txt`. The error says
/// that memory was refused.
///
/// Another text has no path: a code is 1 to 32 bytes of `a-z`, `0-9` and `-`. So no path leaves the folders
/// ([`crate::laws::paths_stay_in_folders`]).
///
/// ```text
/// paths_of(alloc, &["a", "b"], "sr")?      // a/sr.txt, a/sr.extended.txt, b/sr.txt, b/sr.extended.txt,
///                                          // a/sr-cyrl.txt, a/sr-cyrl.extended.txt, b/sr-cyrl.txt, ..
/// paths_of(alloc, &["a"], "fr_CA")?        // a/fr-ca.txt, a/fr-ca.extended.txt, a/fr.txt, a/fr.extended.txt
/// paths_of(alloc, &["a"], "../fr")?        // none
/// ```
pub fn paths_of(alloc: Global, folders: &[&str], tag: &str) -> Result<Vec<String>, AllocError>
    ensures { IfOk result (λ paths. map string_bytes paths.items ≡ paths_of (texts_now folders.now) tag.now) }
{
    paths_by_tag(alloc, Sought::Dictionary, folders, tag)
}

/// Returns the paths at which the list of exceptions of a language is looked for only by its own code. They are those of
/// each of its names in each folder, with the ending `.exceptions`. The error says that memory was refused.
///
/// ```text
/// exception_paths_of_code(alloc, &["a"], &Language::from_code("sr").unwrap())?
/// // a/sr.exceptions, a/sr-cyrl.exceptions
/// ```
pub fn exception_paths_of_code(
    alloc: Global,
    folders: &[&str],
    language: &Language,
) -> Result<Vec<String>, AllocError>
    ensures { IfOk result (λ paths. map string_bytes paths.items
        ≡ exception_paths_of_code (texts_now folders.now) language.now) }
{
    paths_by_code(alloc, Sought::Exceptions, folders, language)
}

/// Returns the paths at which the list of exceptions of a language is looked for, in their order. The first one at which
/// there is a file has it.
///
/// They are those of [`paths_of`], with the ending `.exceptions`. The error says that memory was refused.
///
/// ```text
/// exception_paths_of(alloc, &["a"], "fr_CA")?        // a/fr-ca.exceptions, a/fr.exceptions
/// ```
pub fn exception_paths_of(
    alloc: Global,
    folders: &[&str],
    tag: &str,
) -> Result<Vec<String>, AllocError>
    ensures { IfOk result (λ paths. map string_bytes paths.items ≡ exception_paths_of (texts_now folders.now) tag.now) }
{
    paths_by_tag(alloc, Sought::Exceptions, folders, tag)
}
