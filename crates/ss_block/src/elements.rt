//! The block elements of a message.
ghost use Rattle.std.specs.Prelude.{◌≡◌, option_map, IfSome};
ghost use Rattle.std.specs.List.{All};
ghost use Rattle.ss_message.specs.Layout.{element_value, element_values};
ghost use Rattle.ss_message.specs.Places.{ElementIsWithin};
ghost use Rattle.ss_block.specs.Reading.{element_with};

use ss_message::{Element, Message};

/// The element with this SD-ID, of which a message has one at most.
pub fn element_with<'m>(message: &'m Message<'_>, id: &[u8]) -> Option<&'m Element>
    requires { All (ElementIsWithin message.now.source.now) message.now.elements }
    ensures value { option_map (λ e. element_value message.now.source.now e.now) result
        ≡ element_with id.now (element_values message.now.source.now message.now.elements) }
    ensures within { IfSome result (λ e. ElementIsWithin message.now.source.now e.now) }
{
    let place = message.element(id)?;
    Some(&message.elements.as_slice()[place])
}
