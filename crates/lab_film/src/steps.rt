//! How the Steps of one line of a record are divided into frames.
ghost use Rattle.std.specs.Prelude.{◌<◌, ◌≤◌, ◌+◌};

/// How many Steps at each end of a line have a frame of their own. Those between them have one together.
const AT_EACH_END: u64 = 500;

/// How many Steps the next frame does, if `done` of a line's `times` Steps are done: one at least, and none that the line
/// hasn't.
pub fn next_steps(done: u64, times: u64) -> u64
    requires { done < times }
    ensures some { 1 ≤ result }
    ensures within { done + result ≤ times }
{
    if times > 2 * AT_EACH_END && done == AT_EACH_END {
        times - done - AT_EACH_END
    } else {
        1
    }
}
