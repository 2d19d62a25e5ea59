//! Laws of the search, for all tags and folders. The calls do nothing; each contract is a law.

ghost use Rattle.language_search.specs.Laws.{PathsStayInFolders, PathsHaveNoCase};

/// No path leaves the folders. Each one is a folder of the list, `/`, the code of a language, and `.txt` or
/// `.extended.txt`, or `.exceptions`. A code has no `/` and no `.`.
///
/// It is a law of all tags and folders, and the call does nothing.
pub fn paths_stay_in_folders()
    ensures { PathsStayInFolders }
{}

/// A tag has the same paths in capitals and in small letters.
///
/// It is a law of all tags and folders, and the call does nothing.
pub fn paths_have_no_case()
    ensures { PathsHaveNoCase }
{}
