//! Places of messages that are named.
ghost use Rattle.std.specs.Prelude.{◌≡◌};
ghost use Rattle.ss_report.specs.texts.Facts.{is_named, names_of};

use ss_review::Places;
use std::marker::Model;

/// Places that are named, in rising order.
#[derive(Drop)]
pub(crate) struct Named {
    places: Vec<u32>,
}

impl Model for Named {
    ghost use Rattle.std.specs.Prelude.{ℕ, List};
    ghost use Rattle.std.specs.List.Sorted.{IsNonDecreasing};

    ghost Value = { List ℕ };

    ghost view = { λ n. n.places.items };

    ghost invariant = { λ n. IsNonDecreasing n.places.items };
}

impl Named {
    /// These places, in any order and any of them several times. Takes no memory.
    fn new(places: Places) -> Named
        ensures { is_named result ≡ is_named places }
    {
        let mut places = places.into_vec();
        places.sort_unstable();
        Named { places }
    }

    /// Whether the place is named.
    pub(crate) fn holds(&self, place: u64) -> bool
        ensures { result ≡ is_named self.now place }
    {
        self.places
            .as_slice()
            .binary_search_by(|named| u64::from(*named).cmp(&place))
            .is_ok()
    }
}

/// The places that are named, where facts are asked for.
pub(crate) fn named_of(facts: Option<Places>) -> Option<Named>
    ensures { names_of result ≡ names_of facts }
{
    match facts {
        None => None,
        Some(places) => Some(Named::new(places)),
    }
}
