// What is known of the processes before an entry, so that not every idle entry looks at them anew.
ghost use Rattle.std.specs.Prelude.{◌≡◌, ◌<◌};
ghost use Rattle.run_burst.specs.KnowledgeCode.{nothing_known, marked, is_idle, with_idle, unless_changed};

// Some process is able to move; and, where that is known, these are not.
#[derive(Clone, Copy)]
pub struct Knowledge {
    pub some: bool,
    pub idle: [bool; 8],
}

pub fn nothing_known() -> Knowledge
    ensures { result ≡ nothing_known }
{
    Knowledge {
        some: false,
        idle: [false; 8],
    }
}

fn mark(mut idle: [bool; 8], n: u8) -> [bool; 8]
    ensures { result ≡ marked idle n }
{
    if n < 8 {
        idle[n as usize] = true;
    }
    idle
}

impl Knowledge {
    // Process n is known not to be able to move, while another is. Where nothing is known, the array is not read.
    pub fn is_idle(self, n: u8) -> bool
        requires { n < 8 }
        ensures { result ≡ is_idle self n }
    {
        if !self.some {
            return false;
        }
        let idle = self.idle;
        idle[n as usize]
    }

    // Some process is able to move, but not the one that the byte names.
    pub fn with_idle(self, n: u8) -> Knowledge
        ensures { result ≡ with_idle self n }
    {
        if self.some {
            let before = self.idle;
            let idle = mark(before, n);
            return Knowledge { some: true, idle };
        }
        let idle = mark([false; 8], n);
        Knowledge { some: true, idle }
    }

    // Nothing, where a line has changed a holder.
    pub fn unless(self, changed: bool) -> Knowledge
        ensures { result ≡ unless_changed self changed }
    {
        if changed {
            return nothing_known();
        }
        self
    }
}
