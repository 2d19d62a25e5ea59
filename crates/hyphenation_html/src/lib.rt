//! Soft hyphens for the text of HTML and XHTML pages.
//!
//! [`hyphenate_html`] puts a mark where the words of a page's text may be broken, each by the dictionary of its language
//! ([`LanguageDictionary`]). Nothing else of the page changes. The crate `html_pieces` tells text from markup. A page is cut
//! into pieces once, as an [`HtmlPage`], which also says the languages that it names.
#![tactic(auto)]

mod cut;
mod languages;
mod left_alone;
mod page;
mod touching;
mod unread;

pub use any_dictionary::AnyDictionary;
pub use cut::HtmlPage;
pub use hyphenation_text::Settings;
pub use languages::{LanguageDictionary, best_of};
pub use left_alone::LEFT_ALONE_NAMES;
pub use page::hyphenate_html;
pub use touching::INLINE_NAMES;
pub use unread::unread_line;
