// What stands ahead in a text: the character count of an rt.
ghost use Rattle.std.specs.Prelude.{◌≡◌};
ghost use Rattle.leaflet.specs.Reader.{items_from};
ghost use Rattle.leaflet.specs.Written.{rt_ahead};

use crate::items::Items;
use crate::spots::{Item, Tag};

/// The character count of the next rt, or 0 where none can be read.
pub(crate) fn rt_ahead(text: &[u8]) -> usize
    ensures { result ≡ rt_ahead (items_from text.now) }
{
    Items(text)
        .skip_while(|item| *item != Item::Markup(Tag::Rt))
        .skip(1)
        .take_while(|item| matches!(item, Item::Character(_)))
        .count()
}
