//! Tests of `machine`'s inputs, `sched_text`, `sched_run`, `sched_draw`, `history`, `debug_session`
//! and `hart_local`.
#![tactic(auto)]

// A hart's choice that refuses no store-conditional.
macro_rules! plain {
    ($hart:literal) => {
        Choice {
            hart: $hart,
            refuse: false,
        }
    };
}

// One that does.
macro_rules! refused {
    ($hart:literal) => {
        Choice {
            hart: $hart,
            refuse: true,
        }
    };
}

#[cfg(test)]
mod choice_run_tests;
#[cfg(test)]
mod choice_text_tests;
#[cfg(test)]
mod debugger_tests;
#[cfg(test)]
mod history_text_tests;
#[cfg(test)]
mod input_tests;
#[cfg(test)]
mod local_step_tests;
#[cfg(test)]
mod schedule_tests;
