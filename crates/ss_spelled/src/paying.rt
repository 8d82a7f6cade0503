//! How many steps a front takes.
ghost use Rattle.std.specs.Prelude.{◌≡◌, ◌+◌, ◌<◌, IfSome, IfNone};
ghost use Rattle.ss_spelled.specs.Fronts.{is_tried, fragment_cost, front_cost};

use crate::fragment::Fragment;
use crate::front::Front;

/// So many octets are one step.
const STEP: usize = 1024;

/// Whether a fragment of the same payload has the octet after the front.
fn is_tried(front: &Front, fragment: &Fragment) -> bool
    ensures { result ≡ is_tried front.now fragment.now }
{
    let length = front.text.as_slice().len();
    let octets = fragment.octets.as_slice().len();
    let index = fragment.index as usize;
    fragment.total == front.total && index <= length + 1 && length + 1 < index + octets
}

/// The steps that the fragment takes after the front.
fn fragment_cost(front: &Front, fragment: &Fragment) -> u64
    ensures { result ≡ fragment_cost front.now fragment.now }
{
    if !is_tried(front, fragment) {
        return 0;
    }
    let length = front.text.as_slice().len() / STEP;
    let octets = fragment.octets.as_slice().len() / STEP;
    (length + octets + 2) as u64
}

/// Takes the steps of a front from those that are left; `None` if there are too few.
pub(crate) fn paid(left: u64, fragments: &[Fragment], front: &Front) -> Option<u64>
    ensures some { IfSome result (λ rest. rest + front_cost fragments.now front.now ≡ left) }
    ensures none { IfNone result (left < front_cost fragments.now front.now) }
{
    let mut left = left.checked_sub((fragments.len() / STEP + 1) as u64)?;
    for fragment in fragments {
        left = left.checked_sub(fragment_cost(front, fragment))?;
    }
    Some(left)
}
