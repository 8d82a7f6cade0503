//! Three small files of which each names the one before, computed.
ghost use Rattle.ss_laws.specs.files.cases.SmallChain.{SmallChainIsThis};

use ss_block::laws::readings::readings_are_of_values;
use ss_block::laws::writing::{certificates_are_read, signatures_are_read};
use ss_frame::laws::calls::units_are_read;

/// Three small files are a chain that goes back to a first file, and each is clean. Without the newest one they are a chain
/// too. Without the first one they don't go back to a first file, and without the one between they aren't linked.
pub fn small_chain_is_this()
    ensures { SmallChainIsThis }
{
    readings_are_of_values();
    signatures_are_read();
    certificates_are_read();
    units_are_read();
}
