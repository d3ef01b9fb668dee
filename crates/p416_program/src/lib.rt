//! P4_16 programs: a syntax that some text spells and that breaks none of the rules T1 to T12. Who shows that a syntax keeps the
//! rules has its program here without asking them again; `check16` of `p416_types` asks them.
#![tactic(auto)]

mod program;

pub use program::Program16;
