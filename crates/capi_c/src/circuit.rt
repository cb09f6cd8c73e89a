// The circuit breaker for C. A record is lent as 77 words; what a call answers is one number.
ghost use Rattle.breaker.specs.declared.Loss.TheVariants.{Fraction};
ghost use Rattle.capi.specs.BreakerCalls.{StartsBreaker, StartsPreset, counts_given, TakesReport, TakesTick, TakesHeard};

// Starts a breaker: Go and the record in the 77 words of `breaker`, or refusal 9 for another number of words, or 10.
#[unsafe(no_mangle)]
pub extern "C" fn flasknib_breaker_start(
    k: u64,
    m: u64,
    timeout: u64,
    reduce: u8,
    full: u8,
    time: u64,
    breaker: &mut [u64],
) -> u16
    ensures { StartsBreaker k m timeout reduce full time breaker.old result breaker.new }
{
    capi::circuit::flasknib_breaker_start(k, m, timeout, reduce, full, time, breaker)
}

// Starts a breaker with the preset settings: Go and the record in the 77 words of `breaker`, or refusal 9 for another number of words, or 10.
#[unsafe(no_mangle)]
pub extern "C" fn flasknib_breaker_start_preset(time: u64, breaker: &mut [u64]) -> u16
    ensures { StartsPreset time breaker.old result breaker.new }
{
    capi::circuit::flasknib_breaker_start_preset(time, breaker)
}

// A report with the fraction lost.
#[unsafe(no_mangle)]
pub extern "C" fn flasknib_breaker_report(
    breaker: &mut [u64],
    time: u64,
    highest: u32,
    fraction: u64,
    rtt: u64,
    size: u64,
    rate: u64,
) -> u16
    ensures { TakesReport breaker.old time highest (Fraction fraction) rtt size rate result breaker.new }
{
    capi::circuit::flasknib_breaker_report(breaker, time, highest, fraction, rtt, size, rate)
}

// A report with ECN counts in the place of the fraction lost.
#[unsafe(no_mangle)]
pub extern "C" fn flasknib_breaker_report_ecn(
    breaker: &mut [u64],
    time: u64,
    highest: u32,
    lost: i64,
    marked: u64,
    expected: u64,
    rtt: u64,
    size: u64,
    rate: u64,
) -> u16
    ensures { TakesReport breaker.old time highest (counts_given lost marked expected) rtt size rate result breaker.new }
{
    capi::circuit::flasknib_breaker_report_ecn(
        breaker, time, highest, lost, marked, expected, rtt, size, rate,
    )
}

// A tick on the record in `breaker`: the answer, and the next record in its place.
#[unsafe(no_mangle)]
pub extern "C" fn flasknib_breaker_tick(breaker: &mut [u64], time: u64) -> u16
    ensures { TakesTick breaker.old time result breaker.new }
{
    capi::circuit::flasknib_breaker_tick(breaker, time)
}

// A heard packet on the record in `breaker`: the answer, and the next record in its place.
#[unsafe(no_mangle)]
pub extern "C" fn flasknib_breaker_heard(breaker: &mut [u64], time: u64) -> u16
    ensures { TakesHeard breaker.old time result breaker.new }
{
    capi::circuit::flasknib_breaker_heard(breaker, time)
}
