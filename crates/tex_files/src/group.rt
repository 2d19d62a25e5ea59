//! Files, their groups of patterns and of exceptions, and the words of groups.

/// The kind of a group: its words are patterns, or exceptions with hyphens at their breaks.
#[derive(Clone, Copy, Debug)]
pub enum Group {
    Patterns,
    Exceptions,
}

/// The form of a file.
#[derive(Clone, Copy, Debug)]
pub enum FileForm {
    /// A TeX file, with its groups in braces.
    Tex,
    /// A plain file: the inside of one group.
    Plain(Group),
}

/// A file: its form, and all its bytes.
#[derive(Clone, Copy, Debug)]
pub struct File<'a> {
    pub form: FileForm,
    pub bytes: &'a [u8],
}

/// The place of a piece in a TeX file.
#[derive(Clone, Copy)]
pub enum Place {
    /// Outside of groups.
    Outside,
    /// After the command that opens a group, before its brace.
    Before(Group),
    /// Within a group that was opened on that line, counted from 1.
    Within(Group, usize),
}

/// A word of a group, and the number of its line, counted from 1.
#[derive(Drop)]
pub struct Word {
    pub line: usize,
    pub group: Group,
    pub text: Vec<u8>,
}
