//! The form of a dictionary text: its kind and its version.

/// The kind of a dictionary: whether its breaks may change letters.
#[derive(Clone, Copy, Debug, PartialEq, Eq)]
pub enum Kind {
    /// Breaks change nothing.
    Standard,
    /// Breaks may change the letters around them.
    Extended,
}

impl Kind {
    ghost use Rattle.std.specs.Prelude.{◌≡◌};
    ghost use Rattle.hyphenation_grammar.specs.Form.{kind_of_name};

    /// Returns the kind of a name: `standard` or `extended`. `None` for any other name, capitals included.
    pub fn from_name(name: &str) -> Option<Kind>
        ensures { result ≡ kind_of_name name.now }
    {
        if name == "standard" {
            Some(Kind::Standard)
        } else if name == "extended" {
            Some(Kind::Extended)
        } else {
            None
        }
    }
}

/// The version of a dictionary text: how it writes the values of patterns.
#[derive(Clone, Copy, Debug, PartialEq, Eq)]
pub enum Version {
    /// Values from 0 to 9, each a digit.
    First,
    /// Values from 0 to 255. From 10 on they are written in braces, as in `a{11}b`.
    Second,
}

/// The form of a dictionary text: the kind that the reader asks for, and the version that its first line names.
#[derive(Clone, Copy, Debug, PartialEq, Eq)]
pub struct Form {
    /// Whether the text may have changes.
    pub kind: Kind,
    /// How the text writes values.
    pub version: Version,
}
