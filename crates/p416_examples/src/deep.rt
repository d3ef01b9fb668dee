// Expressions and statements that nest, or go on, as deep as they are long, and are written as they stand but for blanks.

/// Runs: how often a piece stands there, and the piece, between backquotes.
const EXPRESSIONS: &[u8] = b"=expressions may be very deep|Ds
1`x = `10000`(`1`a`10000` + b)`1`;`
1`x = `10000`(a + `1`b`10000`)`1`;`
1`x = `10000`-`1`a`1`;`
1`x = `10000`f(`1`a`10000`)`1`;`
1`x = `1`a`10000`.b`1`;`
1`x = `1`f(a`10000`, a`1`)`1`;`";

/// The same.
const STATEMENTS: &[u8] = b"=statements may be very deep, and lists of them very long|Ds
5000`{`5000`}`
5000`if (a) `1`;`
5000`if (a) ; else `1`;`
5000`switch (t.apply().action_run) { default: {`5000`} }`
10000`a = b;`";

/// The rows of expressions.
pub fn expressions() -> &'static [u8] {
    EXPRESSIONS
}

/// The rows of statements.
pub fn statements() -> &'static [u8] {
    STATEMENTS
}
