// Durations: document 01's number is the answer. The nanoseconds are stored where it is 0; a refused call leaves the lent number as it was.
ghost use Rattle.std.specs.Prelude.{◌≡◌};
ghost use Rattle.duration.specs.Duration as duration;
ghost use Rattle.exports.specs.Durations.{stored};

use duration::OutOfRange;

// Stores the nanoseconds of an answer, if it has them, and gives its number.
fn store(s: Result<u64, OutOfRange>, nanoseconds: &mut u64) -> u8
    ensures { (result ≡ duration.number_of s) × (nanoseconds.new ≡ stored s nanoseconds.old) }
{
    match s {
        Ok(n) => {
            *nanoseconds = n;
            0
        }
        // By document 01's number, for a Result has no form in the C interface.
        Err(e) => e.number(),
    }
}

#[unsafe(no_mangle)]
pub extern "C" fn plot_from_seconds(t: f64, nanoseconds: &mut u64) -> u8
    ensures { (result ≡ duration.number_of (duration.from_seconds t)) × (nanoseconds.new ≡ stored (duration.from_seconds t) nanoseconds.old) }
{
    store(duration::from_seconds(t), nanoseconds)
}

#[unsafe(no_mangle)]
pub extern "C" fn plot_from_hours(h: f64, nanoseconds: &mut u64) -> u8
    ensures { (result ≡ duration.number_of (duration.from_hours h)) × (nanoseconds.new ≡ stored (duration.from_hours h) nanoseconds.old) }
{
    store(duration::from_hours(h), nanoseconds)
}

#[unsafe(no_mangle)]
pub extern "C" fn plot_to_seconds(nanoseconds: u64) -> f64
    ensures { result ≡ duration.to_seconds nanoseconds }
{
    duration::to_seconds(nanoseconds)
}
