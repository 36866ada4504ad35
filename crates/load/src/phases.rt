// The two phases of a load, ready and with a meeting open, as types that are moved from call to call.
ghost use Rattle.std.specs.Prelude.{◌≡◌, ◌<◌, ◌≤◌, ◌≢◌, true};

use refusal::Fault;

// A load of which no meeting is open. It keeps how many tags it has, and nothing of where their words lie.
#[derive(Drop)]
pub struct Ready {
    pub(crate) tags: usize,
    ghost some: { 0 < tags },
    ghost few: { tags ≤ 1024 },
}

// A load with one meeting open, of the tags at two different places. It is spent by `finish` or by `break_off`, and by nothing else.
pub struct Meeting {
    pub(crate) tags: usize,
    pub(crate) first: usize,
    pub(crate) second: usize,
    // Whether the load has gone on without it: so only on the way from `spend` to `drop`. A flag, since the prover has to see it where one falls.
    pub(crate) spent: bool,
    ghost few: { tags ≤ 1024 },
    ghost first_within: { first < tags },
    ghost second_within: { second < tags },
    ghost apart: { first ≢ second },
}

impl Meeting {
    // Spends the meeting: the load is ready again.
    pub(crate) fn spend(mut self) -> Ready
        ensures { result.tags ≡ self.tags }
    {
        self.spent = true;
        Ready { tags: self.tags }
    }
}

// To let an open meeting fall is refused: nobody but `spend` can show what this requires.
impl Drop for Meeting {
    fn drop(self)
        requires { self.spent ≡ true }
    {
        // By each field: under `..` it would be let go whole, and so dropped again.
        let Meeting {
            tags: _,
            first: _,
            second: _,
            spent: _,
        } = self;
    }
}

// What a refused call answers that had taken a load or a meeting: the fault, and the load or the meeting as it was.
#[derive(Drop)]
pub struct Refused<T> {
    pub fault: Fault,
    pub kept: T,
}

// For `?`, where the load is not wanted any more.
impl From<Refused<Ready>> for Fault {
    ghost from_gives = { λ refused fault. fault ≡ refused.fault };

    fn from(refused: Refused<Ready>) -> Fault {
        refused.fault
    }
}
