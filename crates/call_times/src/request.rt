//! What the command line asks for.
ghost use Rattle.std.specs.Prelude.{◌≤◌, IfSome, map, string_bytes};
ghost use Rattle.call_times.specs.Requests.{Asks};

use turn_loops::Placing;

/// As many threads as one domain has room for beside seat 0.
const MOST_THREADS: u32 = 15;

/// How many threads make their turns at once, and which seats they have.
#[derive(Clone, Copy, PartialEq, Eq, Debug, Drop)]
pub struct Request {
    pub placing: Placing,
    pub threads: u32,
}

/// What the words after the program's name ask for: a number of threads, from 1 to 15, and `--neighbours` before it or
/// nothing. None where they are others.
pub fn asked(words: &[String]) -> Option<Request>
    ensures placing { IfSome result
        (λ request. Asks (map string_bytes words.now) request.placing) }
    ensures threads { IfSome result
        (λ request. (1 ≤ request.threads) × (request.threads ≤ 15)) }
{
    match words {
        [threads] => Some(Request {
            placing: Placing::Spaced,
            threads: threads_of(threads)?,
        }),
        [option, threads] if option.as_str() == "--neighbours" => Some(Request {
            placing: Placing::Neighbours,
            threads: threads_of(threads)?,
        }),
        _ => None,
    }
}

/// The number of threads that a word spells. None where it spells none that there may be.
fn threads_of(word: &str) -> Option<u32>
    ensures { IfSome result (λ threads. (1 ≤ threads) × (threads ≤ 15)) }
{
    let threads = word.parse::<u32>().ok()?;
    if threads == 0 || threads > MOST_THREADS {
        return None;
    }
    Some(threads)
}
