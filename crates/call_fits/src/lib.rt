// Fits: a card that is clean, and whether so many bytes would find room there.
#![tactic(auto)]

ghost use Rattle.std.specs.Prelude.{◌≡◌, Ok};
ghost use Rattle.model.specs.Sector.{card_of, window_of};
ghost use Rattle.model.specs.Fat.{fat1_of, free_clusters};
ghost use Rattle.model.specs.Chain.{needed};
ghost use Rattle.model.specs.Ground.{granted};
ghost use Rattle.model.specs.Outcome.{outcome_of};
ghost use Rattle.model.specs.Promises.{Held};
ghost use Rattle.operations.specs.Fitting.{fit, fits, fit_outcome};

use model::{Ended, Ground, Layout};

// On a clean card. More bytes than all clusters hold are told by their number alone.
fn fits_on(w: &[u8], l: Layout, bytes: u64) -> Ended
    requires { Held l w.now }
    ensures { outcome_of (Ok result) ≡ fit_outcome (granted (fit (needed l bytes) (free_clusters l (fat1_of l (card_of w.now))))) }
{
    let n = fat_chain::clusters_needed(l, bytes);
    if n == 0 {
        return Ended::Done(0);
    }
    if u64::from(l.clusters) < n {
        return Ended::No;
    }
    let k = fat_chain::nth_free(w, l, n as u32);
    if k < l.clusters + 2 {
        return Ended::Done(k);
    }
    Ended::No
}

pub fn fits(w: &[u8], bytes: u64) -> Result<Ended, Ground>
    ensures { outcome_of result ≡ fit_outcome (fits (window_of w.now) bytes) }
{
    let v = volume::clean(w)?;
    let l = v.layout;
    Ok(fits_on(w, l, bytes))
}
