//! Tests of `image`, `elf_read`, `mem_flat` and `mem_paged`.
#![tactic(auto)]

#[cfg(test)]
mod calls;
#[cfg(test)]
mod fetch_tests;
#[cfg(test)]
mod image_tests;
#[cfg(test)]
mod label_tests;
#[cfg(test)]
mod loading_tests;
#[cfg(test)]
mod memory_tests;
#[cfg(test)]
mod order_tests;
#[cfg(test)]
mod page_tests;
#[cfg(test)]
mod patching;
#[cfg(test)]
mod symbol_tests;
