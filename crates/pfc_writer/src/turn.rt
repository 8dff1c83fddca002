// The turn of a writer.
ghost use Rattle.std.specs.Prelude.{◌≡◌};
ghost use Rattle.pfc_core.specs.declared.loan.Did.TheVariants as did;
ghost use Rattle.pfc_core.specs.Loans.{WritesLent};

use pfc_core::{Job, Loan};
use pfc_store::{Put, WriteRefusal};
use pfc_world::{DataDev, InfoDev, World};

/// Writes the block of a job, by one positioned write on the store that was lent. It copies nothing.
pub fn write_turn<W: World, D: DataDev<W>, I: InfoDev<W>>(
    loan: &mut Loan<W, D, I>,
    job: &Job<W>,
) -> Result<Put, WriteRefusal>
    requires path { job.now.path ≡ loan.old.store.path }
    requires size { job.now.size ≡ loan.old.store.size }
    requires block_size { job.now.block_size ≡ loan.old.store.block_size }
    requires once { loan.old.did ≡ did.Nothing }
    ensures { WritesLent W.told W.files D.told I.told D.faults D.seen I.seen loan.old job.now.block result loan.new }
{
    loan.write_block(job.block())
}
