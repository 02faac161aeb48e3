// The processor time of this program.

use std::time::CpuClock;

// The processor time that this program has used, in microseconds; 0 where it cannot be told.
// Kept: an `Option` is no plainer: each time is printed, and 0 printed where there is none, and `at_most` says no of a time of 0 too.
pub fn microseconds(rt: &impl CpuClock) -> u64 {
    match rt.process_cpu_time() {
        Ok(time) => u64::try_from(time.as_micros()).unwrap_or(0),
        Err(_) => 0,
    }
}

// What it has used since then.
pub fn since(rt: &impl CpuClock, then: u64) -> u64 {
    microseconds(rt).saturating_sub(then)
}

// Whether a time is at most so long: no, where the clock told nothing.
pub fn at_most(time: u64, limit: u64) -> bool {
    time > 0 && time <= limit
}
