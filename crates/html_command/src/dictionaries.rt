//! The dictionaries of a page: those that the arguments give, and those that folders have. Each is loaded for the first page
//! that needs it, and kept for those after it.

ghost use Rattle.std.specs.Prelude.{◌≡◌, ◌≤◌, ◌∷◌, ◌++◌, [], IfErr, IfOk, IfSome, OnOk, map, length, take, drop, position};
ghost use Rattle.hyphenation_breaks.specs.Borrowed.{texts_now};
ghost use Rattle.std.specs.List.{list_any};
ghost use Rattle.std.specs.Str.{bytes_eq};
ghost use Rattle.html_pieces.specs.Languages.{languages_of};
ghost use Rattle.language_search.specs.Tags.{codes_of};
ghost use Rattle.html_command.specs.Dictionaries.{code_of, BeginsWith, HasCodesOf, AreGiven, AddsFound, AreDictionariesFor};
ghost use Rattle.html_command.specs.Dictionaries.{IsAt, IsFoundFor, IsServed, AreServed, tags_for};
ghost use Rattle.html_command.specs.Private.Found.{codes_with, AddsFoundFor, AreFirst, AreLoaded, IsFirstFound, Takes};
ghost use Rattle.html_command.specs.Private.Requests.{parsed_dictionary, parsed_options};
ghost use Rattle.html_command.specs.Private.Runs.{AreFirstBy, FailsOver, IsRefusedAt, IsRefusedFound, IsRefusedGiven};
ghost use Rattle.command_line.specs.Adjustments.{as_adjustments};

use crate::request::{GivenDictionary, Options};
use any_dictionary::AnyDictionary;
use command_line::adjustments::{Adjustments, adjust};
use command_line::dictionaries::{load_file, load_first};
use command_line::{Failure, NamedFiles};
use hyphenation_breaks::language::Language;
use hyphenation_html::{HtmlPage, LanguageDictionary};
use language_search::{codes_of, exception_paths_of_code, paths_of_code};
use std::alloc::{AllocError, Global};

// A dictionary with the code of its language.
fn with_code(
    alloc: Global,
    code: &str,
    dictionary: AnyDictionary,
) -> Result<LanguageDictionary, AllocError>
    ensures code { IfOk result (λ language. code_of language ≡ code.now) }
    ensures dictionary { IfOk result (λ language. language.dictionary ≡ dictionary) }
{
    let code = String::from_str(alloc, code)?;
    Ok(LanguageDictionary { code, dictionary })
}

// Adds a dictionary.
fn push(all: &mut Vec<LanguageDictionary>, language: LanguageDictionary) -> Result<(), AllocError>
    ensures codes { OnOk result (map code_of all.new.items ≡ map code_of all.old.items ++ code_of language ∷ []) }
    ensures pushed { OnOk result (all.new.items ≡ all.old.items ++ language ∷ []) }
{
    all.push(language)?;
    Ok(())
}

// Loads the dictionary at a path, with adjustments.
#[tactic(auto, using(crate::proofs::Refused::at_path))]
fn load_at<F: NamedFiles>(
    files: &F,
    alloc: Global,
    path: &str,
    adjustments: &Adjustments<'_>,
) -> Result<AnyDictionary, Failure>
    ensures loaded { IfOk result (IsAt (F.bytes files.now) (as_adjustments adjustments.now) path.now) }
    ensures failure { IfErr result (IsRefusedAt (F.bytes files.now) (as_adjustments adjustments.now) path.now) }
{
    let dictionary = load_file(files, alloc, path)?;
    let no_lists = Vec::new(alloc);
    adjust(files, alloc, &no_lists, adjustments, dictionary)
}

/// Returns the dictionaries that the arguments give, in their order, with adjustments.
#[tactic(auto, using(crate::proofs::Refused::given_is_refused))]
pub(crate) fn load_given<F: NamedFiles>(
    files: &F,
    alloc: Global,
    given: &[GivenDictionary<'_>],
    adjustments: &Adjustments<'_>,
) -> Result<Vec<LanguageDictionary>, Failure>
    ensures given { IfOk result (λ all. AreGiven (F.bytes files.now) (as_adjustments adjustments.now)
        (map parsed_dictionary given.now) all.items) }
    ensures failure { IfErr result (IsRefusedGiven (F.bytes files.now) (as_adjustments adjustments.now)
        (map (λ one. one.path.now) given.now)) }
{
    let mut all = Vec::new(alloc);
    for one in given {
        let dictionary = load_at(files, alloc, one.path, adjustments)?;
        let language = with_code(alloc, one.language.code(), dictionary)?;
        push(&mut all, language)?;
    }
    Ok(all)
}

// Tests whether one of the dictionaries has that code.
fn has_code(all: &[LanguageDictionary], code: &str) -> bool
    ensures { result ≡ list_any (λ one. bytes_eq (code_of one) code.now) all.now }
{
    all.iter().any(|one| one.code.as_str() == code)
}

// Returns the place of the first dictionary of a code.
fn place_of(all: &[LanguageDictionary], code: &str) -> Option<usize>
    ensures { result ≡ position (λ one. bytes_eq (code_of one) code.now) all.now }
{
    all.iter().position(|one| one.code.as_str() == code)
}

// Takes the dictionary of a code out of others, if it is there.
fn take_code(others: &mut Vec<LanguageDictionary>, code: &str) -> Option<LanguageDictionary>
    ensures code { IfSome result (λ one. code_of one ≡ code.now) }
    ensures taken { Takes others.old.items others.new.items result }
{
    let place = place_of(others, code)?;
    Some(others.remove(place))
}

// Loads the dictionary of a code, from the folders, with the exceptions of its language and with adjustments.
#[tactic(auto, using(crate::proofs::Refused::found_is_refused))]
fn load_code<F: NamedFiles>(
    files: &F,
    alloc: Global,
    folders: &[&str],
    adjustments: &Adjustments<'_>,
    language: &Language,
) -> Result<Option<LanguageDictionary>, Failure>
    ensures first { IfOk result (IsFirstFound (F.bytes files.now) (texts_now folders.now)
        (as_adjustments adjustments.now) language.now) }
    ensures code { IfOk result (λ found. IfSome found (λ one. code_of one ≡ language.now)) }
    ensures failure { IfErr result (IsRefusedFound (F.bytes files.now) (texts_now folders.now)
        (as_adjustments adjustments.now)) }
{
    language.invariant();
    let paths = paths_of_code(alloc, folders, language)?;
    let Some(named) = load_first(files, alloc, &paths)? else {
        return Ok(None);
    };
    let lists = exception_paths_of_code(alloc, folders, language)?;
    let dictionary = adjust(files, alloc, &lists, adjustments, named)?;
    Ok(Some(with_code(alloc, language.code(), dictionary)?))
}

// Returns the dictionary of a code, which is one of the others or else is loaded.
fn find_code<F: NamedFiles>(
    files: &F,
    alloc: Global,
    folders: &[&str],
    adjustments: &Adjustments<'_>,
    language: &Language,
    others: &mut Vec<LanguageDictionary>,
) -> Result<Option<LanguageDictionary>, Failure>
    requires { AreFirst (F.bytes files.now) (texts_now folders.now)
        (as_adjustments adjustments.now) others.old.items }
    ensures first { IfOk result (IsFirstFound (F.bytes files.now) (texts_now folders.now)
        (as_adjustments adjustments.now) language.now) }
    ensures code { IfOk result (λ found. IfSome found (λ one. code_of one ≡ language.now)) }
    ensures others { OnOk result (AreFirst (F.bytes files.now) (texts_now folders.now)
        (as_adjustments adjustments.now) others.new.items) }
    ensures failure { IfErr result (IsRefusedFound (F.bytes files.now) (texts_now folders.now)
        (as_adjustments adjustments.now)) }
{
    if let Some(found) = take_code(others, language.code()) {
        return Ok(Some(found));
    }
    load_code(files, alloc, folders, adjustments, language)
}

// Returns the dictionary of a language, from the folders: that of the longest of its codes that has one. `None` if there is
// none, or it is there already.
fn find_language<F: NamedFiles>(
    files: &F,
    alloc: Global,
    folders: &[&str],
    adjustments: &Adjustments<'_>,
    tag: &str,
    all: &[LanguageDictionary],
    others: &mut Vec<LanguageDictionary>,
) -> Result<Option<LanguageDictionary>, Failure>
    requires { AreFirst (F.bytes files.now) (texts_now folders.now)
        (as_adjustments adjustments.now) others.old.items }
    ensures found { IfOk result (λ found. IfSome found (IsFoundFor (F.bytes files.now) (texts_now folders.now)
        (as_adjustments adjustments.now) tag.now)) }
    ensures served { IfOk result (λ found. IsServed (F.bytes files.now) (texts_now folders.now) (codes_with all.now found)
        (codes_of tag.now)) }
    ensures others { OnOk result (AreFirst (F.bytes files.now) (texts_now folders.now)
        (as_adjustments adjustments.now) others.new.items) }
    ensures failure { IfErr result (IsRefusedFound (F.bytes files.now) (texts_now folders.now)
        (as_adjustments adjustments.now)) }
{
    let languages = codes_of(alloc, tag)?;
    for language in &languages {
        if has_code(all, language.code()) {
            return Ok(None);
        }
        if let Some(found) = find_code(files, alloc, folders, adjustments, language, others)? {
            return Ok(Some(found));
        }
    }
    Ok(None)
}

// Adds the dictionary of a language, if one is found.
#[tactic(auto, using(crate::proofs::Codes::adds_none, crate::proofs::Codes::adds_one))]
fn add_found<F: NamedFiles>(
    files: &F,
    alloc: Global,
    folders: &[&str],
    adjustments: &Adjustments<'_>,
    tag: &str,
    all: &mut Vec<LanguageDictionary>,
    others: &mut Vec<LanguageDictionary>,
) -> Result<(), Failure>
    requires { AreFirst (F.bytes files.now) (texts_now folders.now)
        (as_adjustments adjustments.now) others.old.items }
    ensures found { OnOk result (AddsFoundFor (F.bytes files.now) (texts_now folders.now)
        (as_adjustments adjustments.now) tag.now all.old.items all.new.items) }
    ensures served { OnOk result (IsServed (F.bytes files.now) (texts_now folders.now) (map code_of all.new.items)
        (codes_of tag.now)) }
    ensures others { OnOk result (AreFirst (F.bytes files.now) (texts_now folders.now)
        (as_adjustments adjustments.now) others.new.items) }
    ensures failure { IfErr result (IsRefusedFound (F.bytes files.now) (texts_now folders.now)
        (as_adjustments adjustments.now)) }
{
    let Some(language) = find_language(files, alloc, folders, adjustments, tag, all, others)? else {
        return Ok(());
    };
    push(all, language)?;
    Ok(())
}

// Adds the dictionaries of a language and of those that a page names.
fn add_named<F: NamedFiles>(
    files: &F,
    alloc: Global,
    folders: &[&str],
    adjustments: &Adjustments<'_>,
    language: &str,
    page: &HtmlPage<'_>,
    all: &mut Vec<LanguageDictionary>,
    others: &mut Vec<LanguageDictionary>,
) -> Result<(), Failure>
    requires { AreFirst (F.bytes files.now) (texts_now folders.now)
        (as_adjustments adjustments.now) others.old.items }
    ensures added { OnOk result (BeginsWith (map code_of all.new.items) (map code_of all.old.items)) }
    ensures found { OnOk result (AddsFound (F.bytes files.now) (texts_now folders.now)
        (as_adjustments adjustments.now) (language.now ∷ languages_of page.now)
        all.old.items all.new.items) }
    ensures served { OnOk result (AreServed (F.bytes files.now) (texts_now folders.now) (map code_of all.new.items)
        (language.now ∷ languages_of page.now)) }
    ensures others { OnOk result (AreFirst (F.bytes files.now) (texts_now folders.now)
        (as_adjustments adjustments.now) others.new.items) }
    ensures failure { IfErr result (IsRefusedFound (F.bytes files.now) (texts_now folders.now)
        (as_adjustments adjustments.now)) }
{
    let languages = page.languages(alloc)?;
    add_found(files, alloc, folders, adjustments, language, all, others)?;
    for named in &languages {
        add_found(files, alloc, folders, adjustments, named, all, others)?;
    }
    Ok(())
}

// Adds the dictionaries of a page that are searched to those that the arguments give.
#[tactic(auto, using(crate::proofs::Beginnings::without_given, crate::proofs::Codes::found_in_usual, crate::proofs::Given::codes_of_given, crate::proofs::Refused::of_found))]
fn add_searched<F: NamedFiles>(
    files: &F,
    alloc: Global,
    options: &Options<'_>,
    folders: &[&str],
    page: &HtmlPage<'_>,
    all: &mut Vec<LanguageDictionary>,
    others: &mut Vec<LanguageDictionary>,
) -> Result<(), Failure>
    requires given { AreGiven (F.bytes files.now) (parsed_options options.now).adjustments (parsed_options options.now).given
        all.old.items }
    requires others { AreFirstBy options.now (F.bytes files.now) folders.now others.old.items }
    ensures codes { OnOk result (HasCodesOf (parsed_options options.now) (map code_of all.new.items)) }
    ensures dictionaries { OnOk result (AreDictionariesFor (F.bytes files.now) (parsed_options options.now)
        (texts_now folders.now) (tags_for (parsed_options options.now) page.now) all.new.items) }
    ensures others { OnOk result (AreFirstBy options.now (F.bytes files.now) folders.now others.new.items) }
    ensures failure { IfErr result (FailsOver options.now (F.bytes files.now) folders.now) }
{
    let language = options.language;
    if let Some(folder) = options.folder {
        add_named(
            files,
            alloc,
            &[folder],
            &options.adjustments,
            language,
            page,
            all,
            others,
        )?;
        return Ok(());
    }
    if options.given.is_empty() {
        add_named(
            files,
            alloc,
            folders,
            &options.adjustments,
            language,
            page,
            all,
            others,
        )?;
        return Ok(());
    }
    Ok(())
}

// Leaves the first dictionaries, of this number, and sets aside those after them.
fn set_aside(
    all: &mut Vec<LanguageDictionary>,
    others: &mut Vec<LanguageDictionary>,
    number: usize,
) -> Result<(), AllocError>
    requires { number ≤ length all.old.items }
    ensures left { OnOk result (all.new.items ≡ take number all.old.items) }
    ensures set_aside { OnOk result (others.new.items ≡ others.old.items ++ drop number all.old.items) }
{
    let mut rest = all.split_off(number)?;
    others.append(&mut rest)?;
    Ok(())
}

/// Puts the dictionaries for a page in place of those of the page before it: those that the arguments give, and then those
/// that are found. The others are those that were found for pages before alone.
///
/// Dictionaries are searched in the folder that the arguments name, or else in these folders if no dictionary is given. Each
/// is of a language that the page names, or of the one that the arguments name for it. One that was found for a page before
/// is taken from the others, and not opened again.
pub(crate) fn load_for_page<F: NamedFiles>(
    files: &F,
    alloc: Global,
    options: &Options<'_>,
    folders: &[&str],
    page: &HtmlPage<'_>,
    all: &mut Vec<LanguageDictionary>,
    others: &mut Vec<LanguageDictionary>,
) -> Result<(), Failure>
    requires { AreLoaded (F.bytes files.now) (parsed_options options.now) (texts_now folders.now) all.old.items
        others.old.items }
    ensures codes { OnOk result (HasCodesOf (parsed_options options.now) (map code_of all.new.items)) }
    ensures dictionaries { OnOk result (AreDictionariesFor (F.bytes files.now) (parsed_options options.now)
        (texts_now folders.now) (tags_for (parsed_options options.now) page.now) all.new.items) }
    ensures loaded { OnOk result (AreLoaded (F.bytes files.now) (parsed_options options.now) (texts_now folders.now)
        all.new.items others.new.items) }
    ensures failure { IfErr result (FailsOver options.now (F.bytes files.now) folders.now) }
{
    set_aside(all, others, options.given.len())?;
    add_searched(files, alloc, options, folders, page, all, others)?;
    Ok(())
}
