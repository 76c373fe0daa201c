// A process that is over: it finished, or a fault stopped it.
ghost use Rattle.std.specs.Prelude.{◌≡◌};
ghost use Rattle.run_events.specs.EndsCode.{stopped_words, finished_words};

use run_store::blocks::clear;
use run_store::head::{Head, put_status, read_head};

// "Faults stop the process, which keeps all slots and pending values".
pub fn stop(w: &mut [u32], fault: u32)
    ensures { w.new ≡ stopped_words w.old fault }
{
    let h = read_head(w);
    put_status(w, h.stop(fault));
}

// "The root frame's RET finishes the process, which then reaches nothing."
pub fn finish(w: &mut [u32])
    ensures { w.new ≡ finished_words w.old }
{
    let h = read_head(w);
    clear(w, 0, 512);
    put_status(w, h.finish());
}
