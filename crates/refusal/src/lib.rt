// The twelve refusals, and the checks that give them, in the order in which they are tried.
#![tactic(auto)]

ghost use Rattle.std.specs.Prelude.{◌≡◌};
ghost use Rattle.refusal.specs.Numbers.{number_of};
ghost use Rattle.refusal.specs.Results.{result_of};
ghost use Rattle.refusal.specs.Checks.{first, no_fault, unread, shown, table};

#[derive(Clone, Copy)]
pub enum Refusal {
    Lent,
    Malformed,
    Bound,
    Undeclared,
    Repeated,
    Misplaced,
    WindowSize,
    ClockBack,
    StreamFull,
    NoRoute,
    ManyRoutes,
    NoRoom,
}

// A refusal, and what is held after it: what was, where a call takes a value and gives it back. That stands first, where an Ok has its value, so that neither is moved for the other.
#[derive(Clone, Copy)]
pub struct Refused<T> {
    pub held: T,
    pub refusal: Refusal,
}

// What is wrong with a call, check by check, in the order of the refusal table. `long` is a line over its bytes.
#[derive(Clone, Copy)]
pub struct Checks {
    pub lent: bool,
    pub long: bool,
    pub malformed: bool,
    pub bound: bool,
    pub undeclared: bool,
    pub repeated: bool,
    pub misplaced: bool,
    pub window: bool,
    pub back: bool,
    pub full: bool,
    pub unrouted: bool,
    pub many: bool,
    pub room: bool,
}

impl Refusal {
    // Returns the number under which callers know the refusal, 1 to 12.
    pub fn number(self) -> u32
        ensures { result ≡ number_of self }
    {
        match self {
            Refusal::Lent => 12,
            Refusal::Malformed => 1,
            Refusal::Bound => 3,
            Refusal::Undeclared => 2,
            Refusal::Repeated => 6,
            Refusal::Misplaced => 4,
            Refusal::WindowSize => 5,
            Refusal::ClockBack => 7,
            Refusal::StreamFull => 8,
            Refusal::NoRoute => 9,
            Refusal::ManyRoutes => 10,
            Refusal::NoRoom => 11,
        }
    }
}

impl Checks {
    // Returns the checks of a call with which nothing is wrong.
    pub fn new() -> Checks
        ensures { result ≡ no_fault }
    {
        Checks {
            lent: false,
            long: false,
            malformed: false,
            bound: false,
            undeclared: false,
            repeated: false,
            misplaced: false,
            window: false,
            back: false,
            full: false,
            unrouted: false,
            many: false,
            room: false,
        }
    }

    // Returns what a line shows that was not read: it is of another form, and too long where `long`.
    pub fn unread(long: bool) -> Checks
        ensures { result ≡ unread long }
    {
        let mut c = Checks::new();
        c.long = long;
        c.malformed = true;
        c
    }

    // Returns what a line shows that was read: 3, 2, 6, 4 and 5 of it by itself, and nothing else.
    pub fn shown(
        bound: bool,
        undeclared: bool,
        repeated: bool,
        misplaced: bool,
        window: bool,
    ) -> Checks
        ensures { result ≡ shown bound undeclared repeated misplaced window }
    {
        let mut c = Checks::new();
        c.bound = bound;
        c.undeclared = undeclared;
        c.repeated = repeated;
        c.misplaced = misplaced;
        c.window = window;
        c
    }

    // Returns the refusal of the first check that fails, in the order of the fields, or that it is accepted.
    pub fn result(self) -> Result<(), Refusal>
        ensures { result ≡ result_of (first (table self)) }
    {
        if self.lent {
            return Err(Refusal::Lent);
        }
        if self.long {
            return Err(Refusal::Bound);
        }
        if self.malformed {
            return Err(Refusal::Malformed);
        }
        if self.bound {
            return Err(Refusal::Bound);
        }
        if self.undeclared {
            return Err(Refusal::Undeclared);
        }
        if self.repeated {
            return Err(Refusal::Repeated);
        }
        if self.misplaced {
            return Err(Refusal::Misplaced);
        }
        if self.window {
            return Err(Refusal::WindowSize);
        }
        if self.back {
            return Err(Refusal::ClockBack);
        }
        if self.full {
            return Err(Refusal::StreamFull);
        }
        if self.unrouted {
            return Err(Refusal::NoRoute);
        }
        if self.many {
            return Err(Refusal::ManyRoutes);
        }
        if self.room {
            return Err(Refusal::NoRoom);
        }
        Ok(())
    }
}
