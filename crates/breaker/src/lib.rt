// The sender's circuit breaker (document 01, "The breaker"; 02, requests L2, L4 and L9; RFC 8083, sections 4.1 to 4.3 and 5).
#![tactic(auto)]

ghost use Rattle.std.specs.Prelude.{◌≡◌};
ghost use Rattle.breaker.specs.Answers.{reason_number, answers, stops};
ghost use Rattle.breaker.specs.Numbered.{step_as};
ghost use Rattle.breaker.specs.Rules.{stored};
ghost use Rattle.breaker.specs.Calls.{fresh, unstarted, preset, start_of, report_of, early, timed, tick_of, holding, heard_of};
ghost use Rattle.breaker.specs.Private.{Opens};

use answers::Refusal;

mod equations;
mod intervals;
mod limits;
mod losses;
mod rules;
mod soundness;

// The number of intervals k, the media run m that stops, the timeout in ms, whether reductions are allowed, and whether the full throughput
// equation is taken in place of the simplified one.
#[derive(Clone, Copy)]
pub struct Settings {
    pub k: usize,
    pub m: u64,
    pub timeout: u64,
    pub reduce: bool,
    pub full: bool,
}

// Why the breaker stops, by the numbers of document 01.
#[derive(Clone, Copy)]
pub enum Reason {
    // No report and no heard packet for the timeout.
    Timeout = 1,
    // m reports in a row whose highest number is not ahead.
    Media = 2,
    // The rate is above ten times the throughput equation.
    Congestion = 3,
}

impl Reason {
    // The reason's number in document 01.
    pub fn number(self) -> u8
        ensures { result ≡ reason_number self }
    {
        self as u8
    }
}

// Whether the breaker has stopped, and by which rule. (An enum of its own, since a `None` of an `Option<Reason>` would not say that it runs.)
#[derive(Clone, Copy)]
pub enum State {
    Running,
    Stopped(Reason),
}

// The time between two reports in ms, and the fraction lost in it in 256ths.
#[derive(Clone, Copy)]
pub struct Interval {
    pub length: u64,
    pub fraction: u64,
}

// The last intervals, the newest first. The places from `used` on are zero.
#[derive(Clone, Copy)]
pub struct Window {
    pub used: usize,
    pub intervals: [Interval; 32],
}

// The breaker's record: `last` is the time of the last report or of the start, where the current interval begins; `heard` is the time from which
// the timeout is measured, that of the last report, heard packet or start; `reported` is whether there was a report, `highest` its number, `run`
// the media run, `trial` whether a reduction is under trial.
#[derive(Clone, Copy)]
pub struct Breaker {
    pub settings: Settings,
    pub state: State,
    pub last: u64,
    pub heard: u64,
    pub reported: bool,
    pub highest: u32,
    pub run: u64,
    pub trial: bool,
    pub window: Window,
}

// What came of the packets of a report's interval: L lost (negative where some came that were counted as lost before), C marked with CE, of E
// expected.
#[derive(Clone, Copy)]
pub struct EcnCounts {
    pub lost: i64,
    pub marked: u64,
    pub expected: u64,
}

// What a report says of its interval's losses: the fraction lost in 256ths, or the ECN counts that give it.
#[derive(Clone, Copy)]
pub enum Loss {
    Fraction(u64),
    Counts(EcnCounts),
}

// What a report says: its time in ms, the highest sequence number, the losses, the round trip in ms, the packet size in bytes, and the
// sending rate in bytes per second.
#[derive(Clone, Copy)]
pub struct Report {
    pub time: u64,
    pub highest: u32,
    pub loss: Loss,
    pub rtt: u64,
    pub size: u64,
    pub rate: u64,
}

// What a call answers.
#[derive(Clone, Copy)]
pub enum Answer {
    Go,
    Reduce,
    Stop(Reason),
    Refused(Refusal),
}

// The answer, and the next breaker.
#[derive(Clone, Copy)]
pub struct Step {
    pub answer: Answer,
    pub breaker: Breaker,
}

impl Breaker {
    // The limits. A time is below TIME_LIMIT, 2^48 ms; a stored length is from 1 to MAX_LENGTH; MAX_PACKETS, 2^31, is that of the ECN counts.
    pub const MAX_K: usize = 32;

    pub const MAX_M: u64 = 32;

    pub const MAX_TIMEOUT: u64 = 600_000;

    pub const TIME_LIMIT: u64 = 281_474_976_710_656;

    pub const MAX_FRACTION: u64 = 255;

    pub const MAX_PACKETS: u64 = 2_147_483_648;

    pub const MAX_RTT: u64 = 60_000;

    pub const MAX_SIZE: u64 = 65_535;

    pub const MAX_RATE: u64 = 125_000_000;

    pub const MAX_LENGTH: u64 = 10_000_000;

    // The preset settings.
    pub const PRESET: Settings = Settings {
        k: 3,
        m: 3,
        timeout: 15_000,
        reduce: false,
        full: false,
    };

    // A breaker that runs from `time` on, with the answer Go. Refused with 10, the record is all zero, which every call refuses with 9.
    #[tactic(auto, unfolding(crate::specs::Calls::start_of))]
    pub fn start(settings: Settings, time: u64) -> Step
        ensures value { result ≡ start_of settings time }
        ensures numbered { step_as result ≡ step_as (start_of settings time) }
    {
        if !limits::settings_ok(settings) || Breaker::TIME_LIMIT <= time {
            return Breaker::unstarted();
        }
        Breaker::fresh(settings, time).answered(Answer::Go)
    }

    // A start with the preset settings.
    pub fn start_preset(time: u64) -> Step
        ensures value { result ≡ start_of preset time }
        ensures numbered { step_as result ≡ step_as (start_of preset time) }
    {
        Breaker::start(Breaker::PRESET, time)
    }

    // A report: refused with 9, answered by the stop, refused with 10 or 11, or judged by the rules.
    pub fn report(self, r: Report) -> Step
        ensures value { result ≡ report_of self r }
        ensures numbered { step_as result ≡ step_as (report_of self r) }
    {
        if let Some(answer) = self.opening() {
            return self.answered(answer);
        }
        if !limits::report_ok(r) {
            return self.answered(Answer::Refused(Refusal::Limits));
        }
        if r.time <= self.last || r.time < self.heard {
            return self.answered(Answer::Refused(Refusal::Time));
        }
        rules::ruled(self, r)
    }

    // A tick: refused with 9, answered by the stop, refused with 10 or 11, or tested for the timeout.
    pub fn tick(self, time: u64) -> Step
        ensures value { result ≡ tick_of self time }
        ensures numbered { step_as result ≡ step_as (tick_of self time) }
    {
        self.timed(time, self.heard)
    }

    // A packet without SR or RR is heard: as a tick, but the timeout is measured from this time on.
    pub fn heard(self, time: u64) -> Step
        ensures value { result ≡ heard_of self time }
        ensures numbered { step_as result ≡ step_as (heard_of self time) }
    {
        self.timed(time, time)
    }

    // A call that has only a time, after which the timeout is measured from `held`.
    fn timed(self, time: u64, held: u64) -> Step
        ensures { result ≡ timed self time (holding self held) }
    {
        if let Some(answer) = self.opening() {
            return self.answered(answer);
        }
        if Breaker::TIME_LIMIT <= time {
            return self.answered(Answer::Refused(Refusal::Limits));
        }
        if self.is_early(time) {
            return self.answered(Answer::Refused(Refusal::Time));
        }
        if self.settings.timeout <= time - self.heard {
            return self.stopped(Reason::Timeout);
        }
        self.holding(held).answered(Answer::Go)
    }

    // Whether a time is earlier than the last report, heard packet or start.
    fn is_early(self, time: u64) -> bool
        ensures { result ≡ early self time }
    {
        time < self.last || time < self.heard
    }

    // What every call begins with: refused with 9, or answered by the stop.
    fn opening(self) -> Option<Answer>
        ensures { Opens self result }
    {
        if !soundness::is_sound(self) {
            return Some(Answer::Refused(Refusal::Malformed));
        }
        match self.state {
            State::Stopped(reason) => Some(Answer::Stop(reason)),
            State::Running => None,
        }
    }

    // The record that a start makes.
    fn fresh(settings: Settings, time: u64) -> Self
        ensures { result ≡ fresh settings time }
    {
        Breaker {
            settings,
            state: State::Running,
            last: time,
            heard: time,
            reported: false,
            highest: 0,
            run: 0,
            trial: false,
            window: intervals::empty(),
        }
    }

    // A start that is refused.
    fn unstarted() -> Step
        ensures { result ≡ unstarted }
    {
        let none = Settings {
            k: 0,
            m: 0,
            timeout: 0,
            reduce: false,
            full: false,
        };
        Breaker::fresh(none, 0).answered(Answer::Refused(Refusal::Limits))
    }

    // An answer, with the record as it is.
    fn answered(self, answer: Answer) -> Step
        ensures { result ≡ answers answer self }
    {
        Step {
            answer,
            breaker: self,
        }
    }

    // A stop, which stores its reason and leaves all else as it was.
    fn stopped(self, reason: Reason) -> Step
        ensures { result ≡ stops reason self }
    {
        Breaker {
            state: State::Stopped(reason),
            ..self
        }
        .answered(Answer::Stop(reason))
    }

    // The record with another time from which the timeout is measured.
    fn holding(self, held: u64) -> Self
        ensures { result ≡ holding self held }
    {
        Breaker {
            heard: held,
            ..self
        }
    }

    // The record after a report that is neither refused nor stopped: it stores the time and the number.
    fn stored(self, r: Report, run: u64, trial: bool, window: Window) -> Self
        ensures { result ≡ stored self r run trial window }
    {
        Breaker {
            last: r.time,
            heard: r.time,
            reported: true,
            highest: r.highest,
            run,
            trial,
            window,
            ..self
        }
    }
}
