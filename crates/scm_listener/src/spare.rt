// Whether there is room for threads.
use std::alloc::Global;
use std::hint::spin_loop;
use std::sync::Arc;
use std::sync::atomic::AtomicU64;
use std::sync::atomic::Ordering::SeqCst;
use std::thread::{self, Threads};

/// Is 1 once the threads may end.
type Gate = Arc<AtomicU64, Global>;

/// How often a thread looks whether it may end: it ends by itself after that.
const LOOKS: u32 = 1_000_000;

/// How many of these looks come at once. From then on another thread may run between two.
const QUICK_LOOKS: u32 = 1_000;

fn wait_at(gate: &Gate) {
    for look in 0..LOOKS {
        if gate.load(SeqCst) != 0 {
            return;
        }
        if look < QUICK_LOOKS {
            spin_loop();
        } else {
            thread::yield_now();
        }
    }
}

/// Whether so many threads more can be started, beside those that wait at the gate. Opens the gate.
fn can_start_at<R: Threads>(rt: &R, gate: &Gate, count: u32) -> bool {
    let Some(fewer) = count.checked_sub(1) else {
        gate.store(1, SeqCst);
        return true;
    };
    let Ok(theirs) = Arc::try_clone(gate) else {
        gate.store(1, SeqCst);
        return false;
    };
    match thread::spawn(rt, move || wait_at(&theirs)) {
        Ok(handle) => {
            let is_room = can_start_at(rt, gate, fewer);
            handle.join(rt);
            is_room
        }
        Err(_) => {
            gate.store(1, SeqCst);
            false
        }
    }
}

/// Whether so many threads can be started at the same time. They have ended when it answers.
pub fn can_start<R: Threads>(rt: &R, alloc: Global, count: u32) -> bool {
    match Arc::new(alloc, AtomicU64::new(0)) {
        Ok(gate) => can_start_at(rt, &gate, count),
        Err(_) => false,
    }
}
