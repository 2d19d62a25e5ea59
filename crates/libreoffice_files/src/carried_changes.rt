//! Values with changes, as each kind of dictionary keeps them.
//!
//! An extended dictionary keeps the change. A standard one has no room for it, and its value forbids the break. A word
//! that loses or gains letters at a break would be broken wrongly without them.

ghost use Rattle.std.specs.Prelude.{◌≡◌, ◌<◌};
ghost use Rattle.libreoffice_files.specs.Changes.{to_even, carried_entry, KindsKeep, NoBreakLosesItsChange};

use hyphenation_breaks::entry::{Entry, Payload};
use hyphenation_breaks::extended::Subregion;
use hyphenation_score::laws::{value_is_borne, value_is_greatest, winner_is_first};

// The next even number of an odd value; an even value itself.
fn to_even(value: u8) -> u8
    ensures { value < 255 → result ≡ to_even value }
{
    value.saturating_add(value % 2)
}

/// Returns the entry that a kind of dictionary keeps of an entry with a change or none. If the kind has no room for the
/// change, the value is made even, so that it forbids the break.
pub fn carried_entry<C: Payload>(entry: Entry<Option<Subregion>>) -> Entry<C>
    ensures { entry.value < 255 → result ≡ carried_entry C.change_of C.payload_of entry }
{
    let Entry {
        place,
        value,
        change,
    } = entry;
    let changes = change.is_some();
    let change = C::from_change(change);
    let value = if changes && change.as_change().is_none() {
        to_even(value)
    } else {
        value
    };
    Entry {
        place,
        value,
        change,
    }
}

/// A standard dictionary carries no change, an extended one each change as it is.
pub fn kinds_keep()
    ensures { KindsKeep }
{}

/// A law: if patterns without their changes allow a break, the patterns with them allow it by an equal value, and it
/// changes nothing.
pub fn no_break_loses_its_change()
    ensures { NoBreakLosesItsChange }
{
    value_is_greatest::<()>();
    value_is_borne::<()>();
    value_is_greatest::<Option<Subregion>>();
    value_is_borne::<Option<Subregion>>();
    winner_is_first::<Option<Subregion>>();
}
