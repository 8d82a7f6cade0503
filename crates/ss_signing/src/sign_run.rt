//! How a run that signs ended.
use crate::fault::SignFault;
use ss_origin::Seals;

/// How a run that signs ended, and its sealer.
#[derive(Drop)]
pub struct SignRun<J: Seals> {
    /// That it succeeded, or why not.
    pub result: Result<(), SignFault>,
    /// The sealer, after the last question of the run.
    pub sealer: J,
}
