//! The laws of the parser and of printing: what is printed of a specification spells it, no spelling has fewer nestings, and what was read
//! and is printed is read again as the same tree; the place of a refusal as too deep is told by the rule, and by the tree where the tokens
//! are a specification; and the grammar as the language reference has it says the same as what the parser reads by. A crate of laws has
//! no code.
#![tactic(auto)]

pub mod fewest;
pub mod places;
pub mod plain;
pub mod printed;
pub mod reprinted;
