//! Tests of `isa_decode`, `isa_encode` and `isa_names`.
#![tactic(auto)]

#[cfg(test)]
mod decoder_tests;
#[cfg(test)]
mod encoder_tests;
#[cfg(test)]
mod hex_word_tests;
#[cfg(test)]
mod operand_names_tests;
