//! Laws on the groups of TeX files and on plain files, in the format's own words.
//!
//! They say the words of every file, so that nobody needs to read the definition in specs/Groups.antt. The first law
//! leaves the comments out. A text without comments is outside of groups up to its first command that means something.
//! Each of the other laws says what follows one of these commands.

ghost use Rattle.std.specs.Prelude.{◌≡◌, List, ℕ, [], None};
ghost use Rattle.tex_files.specs.Converting.{words_of, group_fault};
ghost use Rattle.tex_files.specs.declared.group.FileForm.{FileForm};
ghost use Rattle.tex_files.specs.declared.group.FileForm.TheVariants.{Tex};
ghost use Rattle.tex_files.specs.TexFiles.{IsOutside, IgnoresComments, IgnoresLastComment, HasWordsOfFirstGroupAndRest, HasFaultOfRest};
ghost use Rattle.tex_files.specs.TexFiles.{HasWordsOfOpenGroup, HasFaultOfOpenGroup, SkipsCommandWithoutBrace, HasNothingAfterItsEnd};
ghost use Rattle.tex_files.specs.TexFiles.{HasFaultOfInput, HasWordsBetween};

/// Comments say nothing: with them and without them, a file has equal words on equal lines, and an equal fault.
pub fn comments_say_nothing()
    ensures words { (form : FileForm) → IgnoresComments (words_of form) }
    ensures fault { (form : FileForm) → IgnoresComments (group_fault form) }
    ensures last_words { (form : FileForm) → IgnoresLastComment (words_of form) }
    ensures last_fault { (form : FileForm) → IgnoresLastComment (group_fault form) }
{}

/// A TeX file without comments has the words of its first group, and then those of the text after that group, with
/// their lines. White space may be before the group's brace. A brace and a command within the group are words.
pub fn groups_are_read_in_order()
    ensures words { HasWordsOfFirstGroupAndRest }
    ensures fault { HasFaultOfRest }
{}

/// A TeX file without comments, groups, `\input` and `\endinput` has no words, and nothing is wrong with its groups.
pub fn nothing_is_read_outside_of_groups()
    ensures words { (text : List ℕ) → IsOutside text → words_of Tex text ≡ [] }
    ensures fault { (text : List ℕ) → IsOutside text → group_fault Tex text ≡ None }
{}

/// A TeX file that ends within a group is faulty, on the line of the brace that opens the group.
pub fn open_groups_are_faulty()
    ensures words { HasWordsOfOpenGroup }
    ensures fault { HasFaultOfOpenGroup }
{}

/// A TeX file is read from the text after `\patterns` or `\hyphenation`, if no brace follows that command.
pub fn a_command_without_a_brace_is_skipped()
    ensures rest { SkipsCommandWithoutBrace }
{}

/// A TeX file ends at `\endinput` outside of groups; `\input` there is a fault.
pub fn the_end_is_the_end()
    ensures after_endinput { HasNothingAfterItsEnd }
    ensures at_input { HasFaultOfInput }
{}

/// A plain file without comments has the words of its text, where a brace is a word, and a backslash begins one.
pub fn plain_files_are_words()
    ensures words { HasWordsBetween }
{}
