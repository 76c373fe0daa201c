// Why a run ends, and what a process can do about it.
ghost use Rattle.std.specs.Prelude.{◌≡◌};
ghost use Rattle.run_ability.specs.EndNumbers.{end_number};

// Why a run ends: the schedule is used up, every process is over, none is able to move, or the trace is full.
#[derive(Clone, Copy, PartialEq, Eq)]
pub enum End {
    ScheduleUsed,
    AllOver,
    NoneAble,
    TraceFull,
}

impl End {
    // The number that an answer has for it.
    #[tactic(auto, unfolding(crate::specs::EndNumbers::end_number))]
    pub fn number(self) -> u32
        ensures { result ≡ end_number self }
    {
        match self {
            End::ScheduleUsed => 0,
            End::AllOver => 1,
            End::NoneAble => 2,
            End::TraceFull => 3,
        }
    }
}

// What a process can do: it is over, it is able to move, or it waits.
#[derive(Clone, Copy, PartialEq, Eq)]
pub enum Ability {
    Over,
    Able,
    Waiting,
}
