// Recovery: a pending group is redone; where there is none, FAT2 becomes as FAT1 is.
#![tactic(auto)]

ghost use Rattle.model.specs.Sector.{card_of, window_of};
ghost use Rattle.model.specs.Promises.{Spent};
ghost use Rattle.operations.specs.Program.{stores};
ghost use Rattle.operations.specs.Plan.{recover_stores};
ghost use Rattle.operations.specs.Calls.{recover};
ghost use Rattle.call_outcome.specs.Did.{Did};
ghost use Rattle.volume.specs.Opened.{Legible};

use model::{Ended, Ground, Pending, Stopped, Volume};

// The stores of a recovery, on a card that passes grounds 1 to 6.
fn recover_on(w: &mut [u8], v: Volume, limit: &mut u32) -> Result<(), Stopped>
    requires { Legible v w.old }
    ensures { Spent limit.old limit.new (stores (recover_stores v.layout (card_of w.old) v.pending)) w.old w.new result }
{
    let l = v.layout;
    match v.pending {
        Pending::Nothing => fat_copy::to_fat2(w, l, limit),
        Pending::Broken => Ok(()),
        Pending::Held(s) => {
            let plan = log_group::plan_at(w, s);
            let mut text = [0u8; log_record::TEXT_ROOM];
            log_group::text_at(w, s, &mut text);
            log_steps::redo(w, l, plan, &text, limit)
        }
    }
}

pub fn recover(w: &mut [u8], limit: u32) -> Result<Ended, Ground>
    ensures { Did limit (recover (window_of w.old)) w.old w.new result }
{
    let v = volume::examine(w)?;
    let mut left = limit;
    let stored = recover_on(w, v, &mut left);
    Ok(call_outcome::ended(stored, limit - left))
}
