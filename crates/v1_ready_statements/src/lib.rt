//! Which ready statement a statement of a P4_16 block is. There is no code: the definitions stand in `specs/`.
#![tactic(auto)]
