//! Lists of nodes as trees, for any syntax: a node names its children by the places of earlier nodes. It has the
//! definitions and their laws; the lists themselves are those of the syntaxes that stand on it.
#![tactic(auto)]
