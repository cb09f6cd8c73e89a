// What every program draws on beside its own calls: a trace read as it comes, lines kept and printed, every failure reported on standard error, and what comes
// next. What was read and what was printed no contract can say: `read` is called only by the loop of `read_until`, and `write` only by that of `write_all`. All
// that these two do with an answer is judged by functions whose contracts say it. Whether a read may wait the
// system says, by what standard input is, and `may_wait` judges that too.
#![tactic(auto)]

pub mod clipped;
pub mod copying;
pub mod failures;
mod moving;
pub mod printing;
pub mod reading;
mod retries;
pub mod streams;
pub mod transfers;
pub mod turns;
mod writing;
