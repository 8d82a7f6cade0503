//! One accepted call, as a step.
ghost use Rattle.ss_origin.specs.Step.{StatesStep};

/// The state of a list of calls is that of the calls before the newest, and a step.
pub fn states_step()
    ensures { StatesStep }
{}
