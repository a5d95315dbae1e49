//! A database as it is written.

use table_shape::OutTable;

/// A database: its tables in the order of the schema, and two numbers of its header.
#[derive(Debug, Drop)]
pub struct OutDb {
    pub tables: Vec<OutTable>,
    pub user_version: u32,
    pub application_id: u32,
}
