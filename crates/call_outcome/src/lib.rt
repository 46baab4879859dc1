// How a call that stores ends.
#![tactic(auto)]

ghost use Rattle.std.specs.Prelude.{◌≡◌};
ghost use Rattle.call_outcome.specs.Did.{ended_as};

use model::{Ended, Stopped};

// How a call ends that has made so many stores, by whether those were all.
pub fn ended(stored: Result<(), Stopped>, made: u32) -> Ended
    ensures { result ≡ ended_as stored made }
{
    match stored {
        Ok(()) => Ended::Done(made),
        Err(Stopped) => Ended::Stopped(made),
    }
}
