// The two turns of a sync, each by a loan of the store.
ghost use Rattle.std.specs.Prelude.{◌≡◌, MatchOption};
ghost use Rattle.pfc_core.specs.declared.loan.Did.TheVariants as did;
ghost use Rattle.pfc_core.specs.Loans.{IsPut, IsSync, PutsLent, SyncsLent};
ghost use Rattle.pfc_sync.specs.Turns.{TakesTurn};

use pfc_core::{Did, Loan, Turn};
use pfc_store::{InfoPutRefusal, SyncRefusal};
use pfc_world::{DataDev, InfoDev, World};
use std::alloc::Global;

/// Makes each written block durable, by one sync on the store that was lent for it.
pub fn data_turn<W: World, D: DataDev<W>, I: InfoDev<W>>(
    loan: &mut Loan<W, D, I>,
) -> Result<(), SyncRefusal>
    requires turn { IsSync loan.old.aim }
    requires once { loan.old.did ≡ did.Nothing }
    ensures { SyncsLent W.told W.files D.told I.told D.faults D.seen I.seen loan.old result loan.new }
{
    loan.sync_data()
}

/// Puts a cinfo that claims what is durable, with the head that the loan carries, on the store that was lent for it. It takes
/// memory for the cinfo's bytes, before any call on the device.
pub fn info_turn<W: World, D: DataDev<W>, I: InfoDev<W>>(
    alloc: Global,
    loan: &mut Loan<W, D, I>,
) -> Result<(), InfoPutRefusal>
    requires turn { IsPut loan.old.aim }
    requires once { loan.old.did ≡ did.Nothing }
    ensures { PutsLent W.told W.files D.told I.told I.faults D.seen I.seen loan.old result loan.new }
{
    loan.put_info(alloc)
}

/// Makes the turn for which the loan was lent, where it did nothing yet. It tells whether that turn went well.
pub fn turn_by<W: World, D: DataDev<W>, I: InfoDev<W>>(
    alloc: Global,
    loan: &mut Loan<W, D, I>,
) -> bool
    ensures { TakesTurn W.told W.files D.told I.told D.faults I.faults D.seen I.seen loan.old result loan.new }
{
    if loan.did() != Did::Nothing {
        return false;
    }
    match loan.turn() {
        None => false,
        Some(Turn::Data) => data_turn(loan).is_ok(),
        Some(Turn::Info) => info_turn(alloc, loan).is_ok(),
    }
}
