//! Where the SIGN of a block stood in its signed octets: at the end of its element.
ghost use Rattle.std.specs.Prelude.{◌≡◌, ◌≤◌, IfNone, IfSome, length};
ghost use Rattle.std.specs.List.{All};
ghost use Rattle.std.specs.Option.{option_copied};
ghost use Rattle.ss_message.specs.Layout.{value_of};
ghost use Rattle.ss_message.specs.Places.{ElementIsWithin};
ghost use Rattle.ss_block.specs.Parsed.{IsRead};
ghost use Rattle.ss_block.specs.Reading.{value_reading};
ghost use Rattle.ss_block.specs.Signed.{is_block_id};
ghost use Rattle.ss_block.specs.declared.reading.Reading.TheVariants.{Plain};
ghost use Rattle.ss_signed.specs.Completed.{completed_value};
ghost use Rattle.ss_signed.specs.Places.{first_block, end_of, IsSignPlace};

use ss_message::{Element, Message};

/// Whether this is the SD-ID of a block.
fn is_block_id(id: &[u8]) -> bool
    ensures { result ≡ is_block_id id.now }
{
    id == b"ssign".as_slice() || id == b"ssign-cert".as_slice()
}

/// The first of `elements` that is named as that of a block.
fn first_block<'m>(source: &[u8], elements: &'m [Element]) -> Option<&'m Element>
    requires { All (ElementIsWithin source.now) elements.now }
    ensures { option_copied result ≡ first_block source.now elements.now }
{
    for element in elements {
        if is_block_id(element.id.of(source)) {
            return Some(element);
        }
    }
    None
}

/// Where the `]` of the element stands: after its last parameter, or after its SD-ID if it has none.
fn end_of(source: &[u8], element: &Element) -> usize
    requires { end_of element.now ≤ length source.now }
    ensures { result ≡ end_of element.now }
{
    let _ = source.len();
    match element.parameters.as_slice().last() {
        Some(parameter) => parameter.value.end + 1,
        None => element.id.end,
    }
}

/// Where SIGN is put: at the end of the first element that is named as that of a block; `None` if there is none.
pub fn sign_place(message: &Message<'_>) -> Option<usize>
    requires { IsRead message.now }
    ensures found { IfSome result (λ place. IsSignPlace message.now place) }
    ensures none { IfNone result (value_reading (completed_value (value_of message.now)) ≡ Plain) }
{
    let element = first_block(message.source, message.elements.as_slice())?;
    Some(end_of(message.source, element))
}
