//! Where an object was laid, it stands.
ghost use Rattle.word_layout.specs.Words.{TextsStand, ListsStand, TablesStand};

use crate::list::Element;

/// Says, for every text, list of these elements and table, and for every row of words, that what was laid reads back.
/// The call does nothing else.
pub fn laid_stands<E: Element>()
    ensures texts { TextsStand }
    ensures lists { ListsStand E.Element.of E.Element.mark }
    ensures tables { TablesStand }
{
    let _mark = E::mark();
}
