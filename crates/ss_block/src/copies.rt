//! Copies of octets and of fields of the header, in memory of their own.
ghost use Rattle.std.specs.Prelude.{◌≡◌, IfOk};

use ss_message::Field;
use ss_octets::{Bytes, NoMemory};
use std::alloc::Global;

/// The same octets.
pub fn copy_of(alloc: Global, octets: &[u8]) -> Result<Bytes, NoMemory>
    ensures { IfOk result (λ b. b ≡ octets.now) }
{
    Ok(Bytes::from_vec(Vec::from_slice(alloc, octets)?))
}

/// The same field.
pub fn copy_of_field(alloc: Global, field: &Field) -> Result<Field, NoMemory>
    ensures { IfOk result (λ f. f ≡ field.now) }
{
    match field {
        Field::Nil => Ok(Field::Nil),
        Field::Text(octets) => Ok(Field::Text(copy_of(alloc, octets.as_slice())?)),
    }
}
