//! Room that is used again.
ghost use Rattle.std.specs.Prelude.{◌≡◌, []};

use std::alloc::Global;

/// The most octets of room that are held for what may never come.
const MOST: usize = 4_194_304;

/// Room for other octets: that of these, unless it is large.
pub fn emptied(alloc: Global, octets: Vec<u8>) -> Vec<u8>
    ensures { result.items ≡ [] }
{
    if octets.capacity() > MOST {
        return Vec::new(alloc);
    }
    let mut octets = octets;
    octets.clear();
    octets
}
