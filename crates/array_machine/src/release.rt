// "w is released": "A worker's own record may be lent to the end of its turn and altered there." A turn has the record in a local, read from the worker's cells; that local is what is lent
// here, and it is written back into the cells as it stands at exit (`let_go`, crates/run_memory/src/act.rt).
ghost use Rattle.std.specs.Prelude.{◌≡◌};
ghost use Rattle.schedule.specs.Machine.{nobody};

use schedule::Worker;

// "thread and quota of a worker holding nothing, are 0"
const NO_THREAD: u16 = 0;

const NO_QUOTA: u32 = 0;

// The whole record that stands there at exit; nothing else is lent, so nothing else changes.
pub fn release_lent(worker: &mut Worker)
    ensures { worker.new ≡ nobody }
{
    worker.holds = false;
    worker.thread = NO_THREAD;
    worker.quota = NO_QUOTA;
}
