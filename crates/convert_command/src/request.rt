//! Parses the arguments of the program.

ghost use Rattle.std.specs.Prelude.{◌≡◌, ◌<◌, ◌+◌, ◌==◌, IfErr, IfOk, IfSome, IsSome, None, MatchOption};
ghost use Rattle.std.specs.Prelude.{drop, length, map, option_copied, option_map, position};
ghost use Rattle.convert_command.specs.Tags.{name_in, tag_in, is_other, other_language_from};
ghost use Rattle.convert_command.specs.Arguments.{IsMinimum, ParsesAs, ParsesAsMinimum, has_ending, is_dic_path, is_dic_alone};
ghost use Rattle.convert_command.specs.Arguments.{form_of};
ghost use Rattle.convert_command.specs.Private.Requests.{parsed_request, is_dic};
ghost use Rattle.convert_command.specs.Rejections.{bad_ending_from, input_of};
ghost use Rattle.convert_command.specs.Endings.{IsRejection};

use hyphenation_breaks::language::Language;
use hyphenation_grammar::form::Kind;
use hyphenation_grammar::lines::strip_prefix;
use tex_files::group::{FileForm, Group};

/// The sort of the files.
#[derive(Clone, Copy)]
pub enum Input {
    /// One `.dic` file of LibreOffice.
    Dic,
    /// Files of TeX, and plain ones.
    Tex,
}

/// The arguments as parsed.
#[derive(Drop)]
pub struct Request<'w> {
    pub kind: Kind,
    pub language: Language,
    pub left: Option<u8>,
    pub right: Option<u8>,
    pub input: Input,
    pub paths: &'w [&'w str],
}

// Whether a path ends so.
#[tactic(auto, using(crate::proofs::Endings::ends_so))]
fn has_ending(ending: &str, path: &str) -> bool
    ensures { result ≡ has_ending ending.now path.now }
{
    path.ends_with(ending)
}

/// Returns the form of a file of TeX or a plain one, by the ending of its path. `None` for another ending.
pub fn form_of(path: &str) -> Option<FileForm>
    ensures { result ≡ form_of path.now }
{
    if has_ending(".tex", path) {
        Some(FileForm::Tex)
    } else if has_ending(".pat.txt", path) {
        Some(FileForm::Plain(Group::Patterns))
    } else if has_ending(".hyp.txt", path) {
        Some(FileForm::Plain(Group::Exceptions))
    } else {
        None
    }
}

/// Why the arguments are rejected.
#[derive(Clone, Copy)]
pub enum BadArgs {
    /// They match no form of the usage.
    NoForm,
    /// The file of this number, counted from 0, has no known ending.
    Ending(usize),
    /// The file of this number is a `.dic`, and there are other files.
    NotAlone(usize),
    /// The name of the file of this number has the tag of another language than an earlier one.
    OtherLanguage(usize),
}

// The place of the last slash of a path.
#[tactic(auto, using(crate::proofs::Names::name_found))]
fn last_slash(path: &str) -> Option<usize>
    ensures { MatchOption result (name_in path.now ≡ path.now)
        (λ at. (at < length path.now) × (name_in path.now ≡ drop (at + 1) path.now)) }
{
    path.rfind('/')
}

// The name of a file, by its path.
fn name_of(path: &str) -> &[u8]
    ensures { result.now ≡ name_in path.now }
{
    match last_slash(path) {
        Some(at) => &path.as_bytes()[at + 1..],
        None => path.as_bytes(),
    }
}

// The place of the first dot.
fn first_dot(text: &[u8]) -> Option<usize>
    ensures { result ≡ position (λ b. b == 46) text.now }
{
    text.iter().position(|b| *b == b'.')
}

// The tag of a language in a file's name. hyph-utf8 names its files so: `hyph-TAG.tex`, `hyph-quote-TAG.tex`,
// `hyph-TAG.pat.txt`.
fn tag_of(path: &str) -> Option<&[u8]>
    ensures { option_map (λ tag. tag.now) result ≡ tag_in path.now }
{
    let text = strip_prefix(b"hyph-", name_of(path))?;
    let text = strip_prefix(b"quote-", text).unwrap_or(text);
    let end = first_dot(text)?;
    Some(&text[..end])
}

// Whether a file, by its tag if it has one, is of another language than that of the first tag.
fn is_other(first: &[u8], tag: Option<&[u8]>) -> bool
    ensures { result ≡ is_other first.now (option_copied tag.entry) }
{
    match tag {
        Some(tag) => first != tag,
        None => false,
    }
}

// The first file of another language than those before it, by their names.
fn first_of_other_language(paths: &[&str]) -> Option<usize>
    ensures { result ≡ other_language_from None 0 (map (λ path. path.now) paths.now) }
{
    let mut known: Option<&[u8]> = None;
    for (index, path) in paths.iter().enumerate() {
        match known {
            None => known = tag_of(path),
            Some(first) => {
                if is_other(first, tag_of(path)) {
                    return Some(index);
                }
            }
        }
    }
    None
}

// Whether a path is that of a .dic.
fn is_dic_path(path: &str) -> bool
    ensures { result ≡ is_dic_path path.now }
{
    has_ending(".dic", path)
}

// The first file whose ending is not that of a file of TeX or a plain one.
fn first_bad_ending(paths: &[&str]) -> Option<BadArgs>
    ensures { result ≡ bad_ending_from 0 (map (λ path. path.now) paths.now) }
{
    for (index, path) in paths.iter().enumerate() {
        if is_dic_path(path) {
            return Some(BadArgs::NotAlone(index));
        }
        if form_of(path).is_none() {
            return Some(BadArgs::Ending(index));
        }
    }
    None
}

// Whether the paths are that of one .dic.
fn is_dic_alone(paths: &[&str]) -> bool
    ensures { result ≡ is_dic_alone (map (λ path. path.now) paths.now) }
{
    match paths {
        [path] => is_dic_path(path),
        _ => false,
    }
}

// The sort of the files, by their paths.
fn input_of(paths: &[&str]) -> Result<Input, BadArgs>
    ensures input { result ≡ input_of (map (λ path. path.now) paths.now) }
    ensures alone { IfOk result (λ input. is_dic input ≡ is_dic_alone (map (λ path. path.now) paths.now)) }
{
    if paths.is_empty() {
        return Err(BadArgs::NoForm);
    }
    if is_dic_alone(paths) {
        return Ok(Input::Dic);
    }
    if let Some(bad_args) = first_bad_ending(paths) {
        return Err(bad_args);
    }
    match first_of_other_language(paths) {
        Some(index) => Err(BadArgs::OtherLanguage(index)),
        None => Ok(Input::Tex),
    }
}

// A minimum. `Some(None)` for `-`, which leaves it to the files; `None` for a text that is no minimum.
fn minimum_of(text: &str) -> Option<Option<u8>>
    ensures parsed { IfSome result (ParsesAsMinimum text.now) }
    ensures each { IsMinimum text.now → IsSome result }
{
    if text == "-" {
        return Some(None);
    }
    match text.parse::<u8>() {
        Ok(minimum) => Some(Some(minimum)),
        Err(_) => None,
    }
}

impl<'w> Request<'w> {
    /// Parses arguments `KIND CODE LEFT RIGHT FILE..`. The error says why they are rejected.
    pub fn from_args(args: &'w [&'w str]) -> Result<Request<'w>, BadArgs>
        ensures parsed { IfOk result (λ request. ParsesAs args.now (parsed_request request)) }
        ensures input { IfOk result (λ request.
            is_dic request.input ≡ is_dic_alone (map (λ path. path.now) request.paths.now)) }
        ensures rejected { IfErr result (IsRejection args.now) }
    {
        let [kind, code, left, right, paths @ ..] = args else {
            return Err(BadArgs::NoForm);
        };
        Ok(Request {
            kind: Kind::from_name(kind).ok_or(BadArgs::NoForm)?,
            language: Language::from_code(code).ok_or(BadArgs::NoForm)?,
            left: minimum_of(left).ok_or(BadArgs::NoForm)?,
            right: minimum_of(right).ok_or(BadArgs::NoForm)?,
            input: input_of(paths)?,
            paths,
        })
    }
}
