//! The names of a code.

ghost use Rattle.std.specs.Prelude.{◌≡◌, option_map};
ghost use Rattle.language_search.specs.Names.{usual_variant};

/// Returns the usual variant of a language whose patterns come only in variants.
///
/// ```text
/// usual_variant("de")      // Some("de-1996")
/// usual_variant("fr")      // None
/// ```
#[tactic(auto, unfolding(crate::specs::Names::usual_variant))]
pub(crate) fn usual_variant(code: &str) -> Option<&'static str>
    ensures { option_map (λ name. name.now) result ≡ usual_variant code.now }
{
    match code {
        "de" => Some("de-1996"),
        "el" => Some("el-monoton"),
        "en" => Some("en-us"),
        "mn" => Some("mn-cyrl"),
        "sh" => Some("sh-latn"),
        "sr" => Some("sr-cyrl"),
        _ => None,
    }
}
