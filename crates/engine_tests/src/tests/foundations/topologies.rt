//! Keys that extractors make, files that are read, and files that are refused.
pub(super) mod changes;
mod extractors;
mod parts;
mod refusals;
