//! The folders in which dictionaries are searched.

ghost use Rattle.std.specs.Prelude.{◌≡◌, ◌==◌, ◌∷◌, ◌++◌, [], IfOk, OnOk, map};
ghost use Rattle.std.specs.List.{slice_split};
ghost use Rattle.std.specs.String.{string_bytes};
ghost use Rattle.hyphenation_breaks.specs.Borrowed.{texts_now};
ghost use Rattle.language_search.specs.Folders.{colon, folder_if_any, listed_folders, folders_of_user, folders_of_system, folders_of};

use std::alloc::{AllocError, Global};

// Splits a text at its colons.
fn between_colons(alloc: Global, text: &str) -> Result<Vec<&str>, AllocError>
    ensures { IfOk result (λ found. texts_now found.items ≡ slice_split (λ byte. byte == colon) text.now) }
{
    text.split(':').collect(alloc)
}

// Adds a folder.
fn push(folders: &mut Vec<String>, folder: String) -> Result<(), AllocError>
    ensures { OnOk result (map string_bytes folders.new.items
        ≡ map string_bytes folders.old.items ++ string_bytes folder ∷ []) }
{
    folders.push(folder)?;
    Ok(())
}

// Adds a folder, unless its name is empty.
fn push_if_any(alloc: Global, folder: &str, folders: &mut Vec<String>) -> Result<(), AllocError>
    ensures { OnOk result (map string_bytes folders.new.items
        ≡ map string_bytes folders.old.items ++ folder_if_any folder.now) }
{
    if !folder.is_empty() {
        push(folders, String::from_str(alloc, folder)?)?;
    }
    Ok(())
}

// The folders of a list that has colons between them.
fn listed_folders(alloc: Global, path: &str) -> Result<Vec<String>, AllocError>
    ensures { IfOk result (λ folders. map string_bytes folders.items ≡ listed_folders path.now) }
{
    let listed = between_colons(alloc, path)?;
    let mut folders = Vec::new(alloc);
    for folder in &listed {
        push_if_any(alloc, folder, &mut folders)?;
    }
    Ok(folders)
}

// Adds the user's folder, if there is one.
fn push_folder_of_user(
    alloc: Global,
    data: &str,
    home: &str,
    folders: &mut Vec<String>,
) -> Result<(), AllocError>
    ensures { OnOk result (map string_bytes folders.new.items
        ≡ map string_bytes folders.old.items ++ folders_of_user «data».now home.now) }
{
    if !data.is_empty() {
        push(folders, format!(in alloc; "{data}/hyphenation")?)?;
    } else if !home.is_empty() {
        push(
            folders,
            format!(in alloc; "{home}/.local/share/hyphenation")?,
        )?;
    }
    Ok(())
}

// Adds the folders of the system.
fn push_folders_of_system(alloc: Global, folders: &mut Vec<String>) -> Result<(), AllocError>
    ensures { OnOk result (map string_bytes folders.new.items
        ≡ map string_bytes folders.old.items ++ folders_of_system) }
{
    push(
        folders,
        String::from_str(alloc, "/usr/local/share/hyphenation")?,
    )?;
    push(folders, String::from_str(alloc, "/usr/share/hyphenation")?)?;
    Ok(())
}

/// Returns the folders in which dictionaries are searched, by the values of the environment variables
/// `HYPHENATION_PATH`, `XDG_DATA_HOME` and `HOME`. Each of them is empty if it is not set.
///
/// First come the folders of `path`, which has colons between them; empty ones are left out. Then comes the user's
/// folder: `hyphenation` in `data`, or if that is empty `.local/share/hyphenation` in `home`, or none if both are empty.
/// Then come `/usr/local/share/hyphenation` and `/usr/share/hyphenation`. The error says that memory was refused.
///
/// ```text
/// folders_of(alloc, "/a::/b", "", "/users/ada")?
/// // /a, /b, /users/ada/.local/share/hyphenation, /usr/local/share/hyphenation, /usr/share/hyphenation
/// ```
pub fn folders_of(
    alloc: Global,
    path: &str,
    data: &str,
    home: &str,
) -> Result<Vec<String>, AllocError>
    ensures { IfOk result (λ folders. map string_bytes folders.items ≡ folders_of path.now «data».now home.now) }
{
    let mut folders = listed_folders(alloc, path)?;
    push_folder_of_user(alloc, data, home, &mut folders)?;
    push_folders_of_system(alloc, &mut folders)?;
    Ok(folders)
}
