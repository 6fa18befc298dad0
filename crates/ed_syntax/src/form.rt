//! What a line says.

use ed_lines::{Name, Statement};

/// What a line says, without its number: a label, a statement, both or neither.
#[derive(Drop)]
pub(crate) struct Form {
    pub(crate) label: Option<Name>,
    pub(crate) statement: Option<Statement>,
}
