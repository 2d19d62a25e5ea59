//! Dictionaries whose kind is known only when they are loaded.
//!
//! An [`AnyDictionary`] is a dictionary of either kind. It is loaded by [`Load`](hyphenation_load::Load), as one of a
//! known kind is; the first line of the text names its kind ([`kind_of`]). Its breaks are those of the dictionary that
//! it is.
//!
//! ```text
//! let mut text = &b"hyphenation 1 extended\nlanguage hu\nminima 2 2\n"[..];
//! let dictionary = AnyDictionary::any_from_reader(alloc, &mut text)?;
//! dictionary.kind()       // Kind::Extended
//! ```
#![tactic(auto)]

ghost use Rattle.std.specs.Prelude.{◌≡◌, [], List, ℕ, IsTrue, IsUtf8, IfErr, IfOk, IfSome, OnErr, OnOk, map, not};
ghost use Rattle.std.specs.Io.KnownBytes.{IsAtEnd};
ghost use Rattle.std.specs.String.{string_bytes};
ghost use Rattle.hyphenation_breaks.specs.Break.{ascend_on, plain_break};
ghost use Rattle.hyphenation_grammar.specs.Judging.{refusal_of};
ghost use Rattle.hyphenation_hyphenator.specs.Hyphenated.{hyphenated_text};
ghost use Rattle.hyphenation_hyphenator.specs.Opportunities.{Ascending};
ghost use Rattle.hyphenation_load.specs.Load.{LoadsIn, RespectsLanguage, IsNotOutOfMemory};
ghost use Rattle.hyphenation_reader.specs.Edits.{is_good_edit};
ghost use Rattle.hyphenation_segments.specs.Fits.{Fits};
ghost use Rattle.any_dictionary.specs.Dictionaries.{all_places_by, breaks_by, contents_as, edited, kind_by, language_by};
ghost use Rattle.any_dictionary.specs.Dictionaries.{minima_by, places_by, raised, values_by};

mod from_breaks;
mod kinds;
pub mod laws;
mod loading;
mod places;
mod values;

pub use from_breaks::FromBreaks;
use from_breaks::collected;
use hyphenation_breaks::language::Language;
use hyphenation_dictionary::dictionary::{Extended, Standard};
use hyphenation_grammar::form::Kind;
use hyphenation_hyphenator::text::hyphenated_text;
use hyphenation_load::{Load, Result as LoadResult};
use hyphenation_reader::edits::apply_edit;
pub use kinds::kind_of;
use places::{all_breaks_fit, put_breaks, put_places, put_plain_places};
use std::alloc::{AllocError, Global};
use std::io::Read;
use values::{extended_values, standard_values};

/// A dictionary of either kind.
#[derive(Drop)]
pub enum AnyDictionary {
    /// A dictionary whose breaks change no letters.
    Standard(Standard),
    /// A dictionary whose breaks may change the letters around them.
    Extended(Extended),
}

impl AnyDictionary {
    /// Loads a dictionary of that kind and language from all bytes that a reader has left.
    ///
    /// A text of the other kind is refused for its first line. The errors are those of
    /// [`Load::from_reader`](hyphenation_load::Load::from_reader). The reader is then at its end.
    ///
    /// ```text
    /// let mut text = &b"hyphenation 1 standard\nlanguage en-us\nminima 2 3\n"[..];
    /// AnyDictionary::of_kind(alloc, Kind::Standard, Language::english_us(), &mut text)?
    /// ```
    pub fn of_kind<R: Read>(
        alloc: Global,
        kind: Kind,
        lang: Language,
        reader: &mut R,
    ) -> LoadResult<AnyDictionary>
        ensures loaded { IfSome (R.remaining reader.old) (λ bytes.
            LoadsIn (refusal_of kind) (contents_as kind) language_by lang bytes result) }
        ensures of_kind { IfOk result (λ dictionary. kind_by dictionary ≡ kind) }
        ensures read_to_end { OnOk result (IsAtEnd (R.remaining reader.new)) }
        ensures in_language { RespectsLanguage language_by lang result }
        ensures not_out_of_memory { IfErr result IsNotOutOfMemory }
    {
        match kind {
            Kind::Standard => Ok(AnyDictionary::Standard(Standard::from_reader(
                alloc, lang, reader,
            )?)),
            Kind::Extended => Ok(AnyDictionary::Extended(Extended::from_reader(
                alloc, lang, reader,
            )?)),
        }
    }

    /// Returns the kind.
    pub fn kind(&self) -> Kind
        ensures { result ≡ kind_by self.now }
    {
        match self {
            AnyDictionary::Standard(_) => Kind::Standard,
            AnyDictionary::Extended(_) => Kind::Extended,
        }
    }

    /// Returns the language.
    pub fn language(&self) -> Language
        ensures { result ≡ language_by self.now }
    {
        match self {
            AnyDictionary::Standard(standard) => standard.language(),
            AnyDictionary::Extended(extended) => extended.language(),
        }
    }

    /// Returns the minima: the least numbers of characters of a word before its first break and after its last one.
    ///
    /// ```text
    /// let (left, right) = dictionary.minima();    // (2, 3) for British English
    /// ```
    pub fn minima(&self) -> (usize, usize)
        ensures { result ≡ minima_by self.now }
    {
        match self {
            AnyDictionary::Standard(standard) => standard.minima(),
            AnyDictionary::Extended(extended) => extended.minima(),
        }
    }

    /// Raises the minima to at least these numbers of characters. Greater ones stay, and nothing else changes.
    ///
    /// So the breaks of each word are those of a dictionary that has the greater ones of both as its minima. Soft hyphens
    /// in a word are breaks, whatever the minima are.
    ///
    /// ```text
    /// dictionary.raise_minima(4, 2);      // the minima 2 and 3 are then 4 and 3
    /// ```
    pub fn raise_minima(&mut self, left: u8, right: u8)
        ensures { self.new ≡ raised left right self.old }
    {
        match self {
            AnyDictionary::Standard(standard) => standard.raise_minima(left, right),
            AnyDictionary::Extended(extended) => extended.raise_minima(left, right),
        }
    }

    /// A law for proofs: the breaks of every word fit it, so they ascend strictly on its character boundaries. So do the
    /// places of those that change no letters.
    ///
    /// The call does nothing.
    pub fn breaks_fit(&self)
        ensures fit { (word : List ℕ) → IsUtf8 word → Fits word (breaks_by self.now word) }
        ensures ascend { (word : List ℕ) → IsUtf8 word → Ascending word (breaks_by self.now word) }
        ensures places { (word : List ℕ) → IsUtf8 word → IsTrue (ascend_on word 0 (places_by self.now word)) }
    {
        match self {
            AnyDictionary::Standard(standard) => all_breaks_fit(standard),
            AnyDictionary::Extended(extended) => all_breaks_fit(extended),
        }
    }

    /// Does an edit of the exceptions if it is good: `+WORD PLACES` lists breaks for a word, `-WORD` removes it.
    ///
    /// Reports whether the edit is good. One that is not changes nothing. The only error is out of memory, and then
    /// nothing is changed either.
    ///
    /// ```text
    /// dictionary.edit(alloc, "+again 2")?      // true
    /// ```
    pub fn edit(&mut self, alloc: Global, edit: &str) -> Result<bool, AllocError>
        ensures good { IfOk result (λ good. good ≡ is_good_edit (kind_by self.old) edit.now) }
        ensures done { IfOk result (λ good. IsTrue good → self.new ≡ edited self.old edit.now) }
        ensures unchanged_if_refused { IfOk result (λ good. IsTrue (not good) → self.new ≡ self.old) }
        ensures unchanged_on_error { OnErr result (self.new ≡ self.old) }
        ensures of_same_kind { kind_by self.new ≡ kind_by self.old }
    {
        match self {
            AnyDictionary::Standard(standard) => {
                apply_edit(alloc, Kind::Standard, standard, edit)
            }
            AnyDictionary::Extended(extended) => {
                apply_edit(alloc, Kind::Extended, extended, edit)
            }
        }
    }

    /// Returns a text with the mark at each break of its words, whose letters change where a break says so.
    ///
    /// The only error is out of memory.
    ///
    /// ```text
    /// dictionary.hyphenated(alloc, "Hyphenation, again.", "-")?     // Hy-phen-a-tion, again.
    /// ```
    pub fn hyphenated(&self, alloc: Global, text: &str, mark: &str) -> Result<String, AllocError>
        ensures { IfOk result (λ output. string_bytes output
            ≡ hyphenated_text (breaks_by self.now) mark.now text.now) }
    {
        match self {
            AnyDictionary::Standard(standard) => hyphenated_text(alloc, standard, text, mark),
            AnyDictionary::Extended(extended) => hyphenated_text(alloc, extended, text, mark),
        }
    }

    /// Puts the places of all breaks of a word as written into a list, in place of what it held.
    ///
    /// A caller with many words keeps one list: a standard dictionary takes memory only for it. The only error is out
    /// of memory, and after it the list is empty.
    ///
    /// ```text
    /// let mut places = Vec::new(alloc);
    /// dictionary.places_into(alloc, "Hyphenation", &mut places)?;      // 2, 6, 7
    /// ```
    #[inline(always)]
    pub fn places_into(
        &self,
        alloc: Global,
        word: &str,
        places: &mut Vec<usize>,
    ) -> Result<(), AllocError>
        ensures places { OnOk result (places.new.items ≡ all_places_by self.now word.now) }
        ensures empty_on_error { OnErr result (places.new.items ≡ []) }
    {
        match self {
            AnyDictionary::Standard(standard) => put_breaks(standard, word, places),
            AnyDictionary::Extended(extended) => put_places(alloc, extended, word, places),
        }
    }

    /// Puts the places of the breaks of a word as written that change no letters into a list, in place of what it held.
    ///
    /// A soft hyphen can mark no other break, since letters change only where a line ends. A caller with many words keeps
    /// one list, as for [`places_into`](AnyDictionary::places_into). The only error is out of memory, and what the list
    /// then holds is not said.
    ///
    /// ```text
    /// let mut places = Vec::new(alloc);
    /// dictionary.plain_places_into(alloc, "Hyphenation", &mut places)?;      // 2, 6, 7
    /// ```
    #[inline(always)]
    pub fn plain_places_into(
        &self,
        alloc: Global,
        word: &str,
        places: &mut Vec<usize>,
    ) -> Result<(), AllocError>
        ensures places { OnOk result (places.new.items ≡ places_by self.now word.now) }
        ensures fit { OnOk result (Fits word.now (map plain_break places.new.items)) }
    {
        match self {
            AnyDictionary::Standard(standard) => put_breaks(standard, word, places),
            AnyDictionary::Extended(extended) => put_plain_places(alloc, extended, word, places),
        }
    }

    /// Returns a value made of a word as written with all its breaks. The only error is out of memory.
    ///
    /// Breaks of a standard dictionary have another type than those of an extended one. So the type that is asked for is
    /// made of breaks of any type ([`FromBreaks`]), and neither kind pays for the other.
    ///
    /// ```text
    /// let marked: Marked = dictionary.collect_breaks(alloc, "Hyphenation")?;
    /// ```
    pub fn collect_breaks<M: FromBreaks>(&self, alloc: Global, word: &str) -> Result<M, AllocError>
        ensures { IfOk result (λ made. M.is_of made (breaks_by self.now word.now)) }
    {
        match self {
            AnyDictionary::Standard(standard) => collected(alloc, standard, word),
            AnyDictionary::Extended(extended) => collected(alloc, extended, word),
        }
    }

    /// Returns the values that patterns give a word's places, from place 1 on.
    ///
    /// The word is taken as it is written: capitals are not made small, and neither exceptions nor minima count. The
    /// only error is out of memory.
    ///
    /// ```text
    /// dictionary.values(alloc, "firkin")?      // 0, 2, 5, 2, 0: an odd value allows a break
    /// ```
    pub fn values(&self, alloc: Global, word: &str) -> Result<Vec<u8>, AllocError>
        ensures { IfOk result (λ values. values.items ≡ values_by self.now word.now) }
    {
        match self {
            AnyDictionary::Standard(standard) => standard_values(alloc, standard, word),
            AnyDictionary::Extended(extended) => extended_values(alloc, extended, word),
        }
    }
}
