//! Examples of the matches of statements: a public call of `bank_import` that no line asks for, with ample memory, on values that follow
//! from the rules.
#![tactic(auto)]

#[cfg(test)]
mod matching;
