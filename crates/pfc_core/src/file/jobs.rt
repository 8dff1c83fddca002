// Jobs: how the writing of a block that landed ends.
ghost use Rattle.std.specs.Prelude.{◌≡◌, ◌⊎◌, ◌<◌, ◌↔◌, OnOk, IfErr, MatchBool};
ghost use Rattle.pfc_log.specs.Lawful.{MayDrop};
ghost use Rattle.pfc_core.specs.Calls.{Drops, StraysJob};
ghost use Rattle.pfc_core.specs.Jobs.{EndsWritten, StraysUnwritten};

use super::FileCore;
use crate::token::{Job, Strayed, is_of, stranger};
use pfc_log::{DropCause, Entry};
use pfc_world::World;

impl<W: World> FileCore<W> {
    /// Ends a job whose block won't be written: `Frozen` may be said only where the store is frozen. A block on which no pin is
    /// left leaves memory at once.
    pub fn drop_job(&mut self, job: Job<W>, why: DropCause) -> Result<(), Strayed<Job<W>>>
        ensures ok { OnOk result (Drops self.old job why self.new) }
        ensures strayed { IfErr result (λ s. StraysJob self.old job job why s self.new) }
    {
        let unknown = stranger(&job.tag, self.instance);
        if !is_of(&job.tag, self.instance, &self.shelf) {
            return Err(Strayed {
                token: job,
                why: unknown,
            });
        }
        if !self.may_drop(why) {
            return Err(Strayed {
                token: job,
                why: unknown,
            });
        }
        let Some(slot) = self.shelf.find_waiting(job.tag.held) else {
            return Err(Strayed {
                token: job,
                why: unknown,
            });
        };
        let block = slot.block;
        self.log.push(Entry::Dropped { block, why });
        if slot.pins == 0 {
            self.shelf.remove(slot);
            self.log.push(Entry::Left { block });
            return Ok(());
        }
        self.shelf.change(slot, slot.ended());
        Ok(())
    }

    /// Whether a job may be dropped for this cause.
    fn may_drop(&self, why: DropCause) -> bool
        ensures { MatchBool result (MayDrop self.now.entries why) (MayDrop self.now.entries why → ⊥) }
    {
        match why {
            DropCause::Frozen => self.sets.is_frozen(),
            DropCause::Full { capacity: _ } | DropCause::There => true,
        }
    }

    /// Ends a job whose block was written since it landed. Where it wasn't, but the store is frozen, the block is dropped
    /// so. A block on which no pin is left leaves memory at once.
    pub fn wrote(&mut self, job: Job<W>) -> Result<(), Strayed<Job<W>>>
        ensures ok { OnOk result (EndsWritten self.old job self.new) }
        ensures strayed { IfErr result (λ s. StraysUnwritten self.old job job s self.new) }
    {
        let unknown = stranger(&job.tag, self.instance);
        if !is_of(&job.tag, self.instance, &self.shelf) {
            return Err(Strayed {
                token: job,
                why: unknown,
            });
        }
        let Some(slot) = self.shelf.find_waiting(job.tag.held) else {
            return Err(Strayed {
                token: job,
                why: unknown,
            });
        };
        if !slot.written {
            return self.drop_job(job, DropCause::Frozen);
        }
        if slot.pins == 0 {
            self.shelf.remove(slot);
            self.log.push(Entry::Left { block: slot.block });
            return Ok(());
        }
        self.shelf.change(slot, slot.ended());
        Ok(())
    }
}
