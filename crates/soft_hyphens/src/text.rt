//! Texts without their soft hyphens.

ghost use Rattle.std.specs.Prelude.{◌≡◌, IfOk};
ghost use Rattle.std.specs.String.{string_bytes};
ghost use Rattle.soft_hyphens.specs.Removed.{removed};

use std::alloc::{AllocError, Global};

/// Returns a text without its soft hyphens. All else stays. The error says that memory was refused.
///
/// ```text
/// remove_soft_hyphens(alloc, "fir\u{ad}kin")?     // firkin
/// ```
pub fn remove_soft_hyphens(alloc: Global, text: &str) -> Result<String, AllocError>
    ensures { IfOk result (λ rest. string_bytes rest ≡ removed text.now) }
{
    text.chars().filter(|c| *c != '\u{ad}').collect(alloc)
}
