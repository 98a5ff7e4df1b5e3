//! Tests of c_lexer and c_parser by their public calls, on small texts.
#![tactic(auto)]

#[cfg(test)]
mod lexer_tests;
#[cfg(test)]
mod parser_tests;
