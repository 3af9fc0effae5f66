//! Reports of a run's progress.

use byte_io::Progress;

// A run's progress is reported each time this many more of its choices are done.
const TOLD: usize = 0x10_0000;

/// Reports the number of choices done, if a report is due.
pub fn tell(progress: &mut impl Progress, done: usize, all: usize) {
    if done % TOLD == 0 {
        progress.choices_done(done as u64, all as u64);
    }
}

/// Reports that all choices are done, if there was a report before.
pub fn tell_end(progress: &mut impl Progress, all: usize) {
    if all >= TOLD {
        progress.choices_done(all as u64, all as u64);
    }
}
