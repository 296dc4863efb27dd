// The seven periods: how often a CCM, AIS or LCK is sent, and how long one holds, in ticks of 1/600 s.
// Two tables, `base_period.ticks_table` and `base_period.hold_table`; in the code they are constants that a match names: a table indexed at
// run time would be copied to the stack first. That a hold time times 2 is its ticks times 7, for every code, is `base_period.hold_rule`,
// computed once over both tables.
#![tactic(auto)]

ghost use Rattle.std.specs.Prelude.{◌≡◌};
ghost use Rattle.base_period.specs.Periods.{ticks_of, hold_of, period_of};

// A period: its ticks and its hold time. Both are 0 where there is no period; no `Option`, since `ticks_of` and `hold_of` are so.
#[derive(Clone, Copy)]
pub struct Period {
    pub ticks: u32,
    pub hold: u32,
}

// Both tables of the paper are constants that the match names: an array that is indexed by a code would be copied to the stack first.
impl Period {
    // The ticks of the codes 1 to 7, as the paper prints them; NONE is every other code's.
    pub const NONE: u32 = 0;

    pub const MS_3_33: u32 = 2;

    pub const MS_10: u32 = 6;

    pub const MS_100: u32 = 60;

    pub const S_1: u32 = 600;

    pub const S_10: u32 = 6_000;

    pub const MIN_1: u32 = 36_000;

    pub const MIN_10: u32 = 360_000;

    // Their hold times, as the paper prints them: 3.5 periods each.
    pub const HOLD_NONE: u32 = 0;

    pub const HOLD_MS_3_33: u32 = 7;

    pub const HOLD_MS_10: u32 = 21;

    pub const HOLD_MS_100: u32 = 210;

    pub const HOLD_S_1: u32 = 2_100;

    pub const HOLD_S_10: u32 = 21_000;

    pub const HOLD_MIN_1: u32 = 126_000;

    pub const HOLD_MIN_10: u32 = 1_260_000;

    // The period of a code, a row of both tables; no period, 0 and 0, for 0 and for all above 7.
    pub fn from_code(code: u32) -> Self
        ensures { result ≡ period_of code }
    {
        // by this name and no `From`: lemma `from_code_one`, the edits and the pages cite it
        match code {
            1 => Period {
                ticks: Period::MS_3_33,
                hold: Period::HOLD_MS_3_33,
            },
            2 => Period {
                ticks: Period::MS_10,
                hold: Period::HOLD_MS_10,
            },
            3 => Period {
                ticks: Period::MS_100,
                hold: Period::HOLD_MS_100,
            },
            4 => Period {
                ticks: Period::S_1,
                hold: Period::HOLD_S_1,
            },
            5 => Period {
                ticks: Period::S_10,
                hold: Period::HOLD_S_10,
            },
            6 => Period {
                ticks: Period::MIN_1,
                hold: Period::HOLD_MIN_1,
            },
            7 => Period {
                ticks: Period::MIN_10,
                hold: Period::HOLD_MIN_10,
            },
            _ => Period {
                ticks: Period::NONE,
                hold: Period::HOLD_NONE,
            },
        }
    }
}

// The ticks of a code, 0 where it has no period.
pub fn ticks_of(code: u32) -> u32
    ensures { result ≡ ticks_of code }
{
    Period::from_code(code).ticks
}

// The hold time of a code, 0 where it has no period.
pub fn hold_of(code: u32) -> u32
    ensures { result ≡ hold_of code }
{
    Period::from_code(code).hold
}
