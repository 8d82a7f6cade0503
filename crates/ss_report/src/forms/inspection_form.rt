//! The forms of an inspection.
use crate::forms::report_form::ReportForm;

/// How an inspection is written.
#[derive(Clone, Copy, Debug, PartialEq, Eq)]
pub struct InspectionForm {
    /// In which form its lines are written.
    pub lines: ReportForm,
    /// Whether the line of a wrap says what the octets in it are (`original` of `ss_wrap`).
    pub unwrap: bool,
}
