//! A line of an output as a record, a kind and fields, and how each notation writes it.
pub(crate) mod escaped;
pub(crate) mod fields;
pub(crate) mod json;
pub(crate) mod plain;
pub(crate) mod record;
pub(crate) mod value;
