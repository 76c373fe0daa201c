// The head of a process: its state, taken out of its part of the store by value, changed, and put back.
ghost use Rattle.std.specs.Prelude.{◌≡◌};
ghost use Rattle.run_store.specs.StoreCode.{head_of, put_top, slot_at, top_at, stepped, moved_to, pushed, popped, less_by, started_head, finished_head, stopped_head, put_status};

use super::values::{get, low, put};

#[derive(Clone, Copy)]
pub struct Head {
    pub status: u32,
    pub fault: u32,
    pub frames: u32,
    pub method: u32,
    pub place: u32,
    pub pending: u32,
}

pub fn read_head(w: &[u32]) -> Head
    ensures { result ≡ head_of w.now }
{
    let frames = get(w, 2);
    let at = 4 + 4 * (frames as usize);
    Head {
        status: get(w, 0),
        fault: get(w, 1),
        frames,
        method: get(w, at),
        place: get(w, at + 1),
        pending: get(w, at + 2),
    }
}

// The place and the number of pending values of the top frame, put back.
pub fn put_top(w: &mut [u32], h: Head)
    ensures { w.new ≡ put_top w.old h }
{
    let at = 4 + 4 * (h.frames as usize);
    put(w, at + 1, h.place);
    put(w, at + 2, h.pending);
}

// The status and the number of frames, put back.
pub fn put_status(w: &mut [u32], h: Head)
    ensures { w.new ≡ put_status w.old h }
{
    put(w, 0, h.status);
    put(w, 1, h.fault);
    put(w, 2, h.frames);
}

impl Head {
    // Where slot s of the top frame stands.
    pub fn slot(self, s: u16) -> usize
        ensures { result ≡ slot_at self s }
    {
        16 + 48 * (self.frames as usize) + 2 * (s as usize)
    }

    // Where the value stands that is n below the next free one.
    pub fn top(self, n: u16) -> usize
        ensures { result ≡ top_at self n }
    {
        let free = 48 + 48 * (self.frames as usize) + 2 * (self.pending as usize);
        let down = 2 * (n as usize);
        if down <= free {
            return free - down;
        }
        0
    }

    // The process starts: it runs, with one frame at this instruction of this method and nothing pending.
    pub fn start(mut self, method: u32, place: u32) -> Head
        ensures { result ≡ started_head self method place }
    {
        self.status = 1;
        self.fault = 0;
        self.frames = 1;
        self.method = method;
        self.place = place;
        self.pending = 0;
        self
    }

    // The process, which runs, waits: it goes on running where it stands, so that its whole state is as it was.
    pub fn wait(mut self) -> Head
        requires { self.status ≡ 1 }
        ensures { result ≡ self }
    {
        self.status = 1;
        self
    }

    // The top frame stands after its instruction.
    pub fn step(mut self) -> Head
        ensures { result ≡ stepped self }
    {
        self.place = low(self.place as usize + 1);
        self
    }

    // The top frame stands at this instruction.
    pub fn to(mut self, place: u32) -> Head
        ensures { result ≡ moved_to self place }
    {
        self.place = place;
        self
    }

    // One more pending value, and one fewer.
    pub fn push(mut self) -> Head
        ensures { result ≡ pushed self }
    {
        self.pending = low(self.pending as usize + 1);
        self
    }

    // n pending values fewer.
    pub fn less(mut self, n: u16) -> Head
        ensures { result ≡ less_by self n }
    {
        self.pending = low(self.pending as usize + 4294967296 - n as usize);
        self
    }

    pub fn pop(mut self) -> Head
        ensures { result ≡ popped self }
    {
        self.pending = low(self.pending as usize + 4294967295);
        self
    }

    // The process has finished: no frame is left.
    pub fn finish(mut self) -> Head
        ensures { result ≡ finished_head self }
    {
        self.status = 2;
        self.fault = 0;
        self.frames = 0;
        self.method = 0;
        self.place = 0;
        self.pending = 0;
        self
    }

    // The process has stopped by a fault, and keeps its frames.
    pub fn stop(mut self, fault: u32) -> Head
        ensures { result ≡ stopped_head self fault }
    {
        self.status = 3;
        self.fault = fault;
        self
    }
}
