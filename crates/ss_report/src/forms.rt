//! The forms in which the lines of a report and of an inspection are written.
pub(crate) mod inspection_form;
pub(crate) mod report_form;
