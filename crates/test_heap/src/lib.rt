//! Tests of `page_heap`.
#![tactic(auto)]

#[cfg(test)]
mod heap_tests;
