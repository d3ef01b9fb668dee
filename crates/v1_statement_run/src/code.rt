// The code of a block.
use v1_core::Expressions;
use v1_ready_blocks::Statements;

/// Ready statements, and the expressions that they name.
pub struct Code<'l> {
    /// The expressions.
    pub expressions: Expressions<'l>,
    /// The statements.
    pub statements: Statements<'l>,
}

impl Drop for Code<'_> {
    fn drop(self) {
        let Code {
            expressions: _expressions,
            statements: _statements,
        } = self;
    }
}
