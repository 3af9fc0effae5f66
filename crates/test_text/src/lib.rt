//! Tests of `asm_lex` and `asm_parse`.
#![tactic(auto)]

#[cfg(test)]
mod asm_read_tests;
#[cfg(test)]
mod asm_text_tests;
