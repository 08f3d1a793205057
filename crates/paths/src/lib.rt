// Binders in force, the roots of expressions, and the steps of a path over the node table.
#![tactic(auto)]

pub mod children;
pub mod frames;
pub mod member;
pub mod operand;
pub mod path;
pub mod roots;
pub mod rows;
pub mod scope;
pub mod written;
