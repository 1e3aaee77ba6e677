//! How fast blocks are searched.

use std::time::{Clock, Duration};

/// How many bytes are measured before a verdict, unless they take long.
const SAMPLE_BYTES: u64 = 1_048_576;

/// Once fewer bytes take so many nanoseconds there is a verdict, too.
const SAMPLE_NANOS: u64 = 1_000_000;

/// A search that takes more than a nanosecond a byte is slow: a faster one was seen to gain nothing by several threads.
const NANOS_A_BYTE: u64 = 1;

/// No search counts for more nanoseconds a byte. One that takes far longer says little: its thread may have been held
/// up.
const MOST_NANOS_A_BYTE: u64 = 8;

/// So many nanoseconds of each search aren't counted: they don't come of its bytes.
const NANOS_A_SEARCH: u64 = 2_000;

/// By several threads a byte was seen to take up to about so many times the processor time that it takes by one.
const SPREAD_COST: u64 = 2;

/// After so many verdicts in a row that the search is slow, one thread searches alone again: while several search it is
/// only guessed what one would take, and what else the machine does may have made it slow.
const FIRST_SLOW_LIMIT: u32 = 2;

/// The limit is multiplied by this each time when it was reached.
const SLOW_LIMIT_GROWTH: u32 = 4;

/// The limit doesn't grow beyond so many verdicts.
const LAST_SLOW_LIMIT: u32 = 32;

/// What a clock shows, if it can be read.
pub(crate) fn time<R: Clock>(rt: &R) -> Option<Duration> {
    match rt.monotonic() {
        Ok(time) => Some(time),
        Err(_) => None,
    }
}

/// How long it is since a time, in nanoseconds.
fn nanos_since<R: Clock>(rt: &R, begun: Duration) -> Option<u64> {
    let ended = time(rt)?;
    let nanos = ended.saturating_sub(begun).as_nanos();
    u64::try_from(nanos).ok()
}

/// How fast the last blocks were searched. It decides which threads search, and nothing else.
#[derive(Clone, Copy)]
pub(crate) struct Pace {
    /// How many bytes were searched since the last verdict.
    bytes: u64,
    /// So many nanoseconds of that count, of all threads together, as if one had searched alone.
    nanos: u64,
    /// The last verdict: whether the search was slow. Until there is one it isn't.
    pub(crate) is_slow: bool,
    /// How many verdicts in a row were that it was.
    slow_verdicts: u32,
    /// After so many of them one thread searches alone again.
    slow_limit: u32,
}

impl Pace {
    /// Nothing was measured.
    pub(crate) fn new() -> Pace {
        Pace {
            bytes: 0,
            nanos: 0,
            is_slow: false,
            slow_verdicts: 0,
            slow_limit: FIRST_SLOW_LIMIT,
        }
    }

    /// With a search of so many bytes by so many threads, which began at a time and has just ended. Without a clock
    /// nothing is measured.
    pub(crate) fn after<R: Clock>(
        self,
        rt: &R,
        begun: Option<Duration>,
        bytes: usize,
        threads: u32,
    ) -> Pace {
        let Some(begun) = begun else {
            return self;
        };
        let Some(nanos) = nanos_since(rt, begun) else {
            return self;
        };
        let nanos = if threads > 1 {
            nanos.saturating_mul(u64::from(threads)) / SPREAD_COST
        } else {
            nanos
        };
        self.with(bytes as u64, nanos)
    }

    /// With a search of so many bytes, which took so many nanoseconds.
    fn with(self, bytes: u64, nanos: u64) -> Pace {
        let most = bytes.saturating_mul(MOST_NANOS_A_BYTE);
        let counted = nanos.saturating_sub(NANOS_A_SEARCH).min(most);
        let bytes = self.bytes.saturating_add(bytes);
        let nanos = self.nanos.saturating_add(counted);
        if bytes < SAMPLE_BYTES && nanos < SAMPLE_NANOS {
            return Pace {
                bytes,
                nanos,
                ..self
            };
        }
        self.judged(nanos > bytes.saturating_mul(NANOS_A_BYTE))
    }

    /// With a verdict.
    fn judged(self, was_slow: bool) -> Pace {
        let (slow_verdicts, slow_limit) = if !was_slow {
            (0, FIRST_SLOW_LIMIT)
        } else if self.slow_verdicts < self.slow_limit {
            (self.slow_verdicts.saturating_add(1), self.slow_limit)
        } else {
            let limit = self.slow_limit.saturating_mul(SLOW_LIMIT_GROWTH);
            (0, limit.min(LAST_SLOW_LIMIT))
        };
        Pace {
            bytes: 0,
            nanos: 0,
            is_slow: slow_verdicts > 0,
            slow_verdicts,
            slow_limit,
        }
    }
}
