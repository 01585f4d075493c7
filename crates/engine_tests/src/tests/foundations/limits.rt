//! Limits, a module for each form of bytes.
mod event_files;
mod row_bytes;
mod topologies;
