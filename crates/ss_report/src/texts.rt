//! The texts about a log that are no report: questions and inspections.
pub(crate) mod encoded;
pub(crate) mod ending;
pub(crate) mod facts;
pub(crate) mod inspection;
pub(crate) mod named;
pub(crate) mod payload_marks;
pub(crate) mod question_fields;
pub(crate) mod question_text;
pub(crate) mod questions_once;
