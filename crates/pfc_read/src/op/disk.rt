// Parts that are on disk.
ghost use Rattle.std.specs.Prelude.{◌≡◌, OnOk, OnErr, IsTrue};
ghost use Rattle.pfc_core.specs.Loans.{ReadsLent};
ghost use Rattle.pfc_read.specs.OpView.{Nothing, ToRead};
ghost use Rattle.pfc_read.specs.Steps.{IsLeaveOf};
ghost use Rattle.pfc_read.specs.Fills.{Owes};

use super::ReadOp;
use super::fill::{add_owed, plus};
use crate::segment::Hand;
use pfc_base::Part;
use pfc_core::{Leave, Loan};
use pfc_store::ReadRefusal;
use pfc_world::{DataDev, InfoDev, World};

impl<W: World> ReadOp<W> {
    /// Reads the part that was given out from disk, by a loan of the file's store, into the reply. The token goes back to the
    /// core by `end_disk`. After a failure nothing has changed: the token goes to the core by `leave_broken`, and `owe` follows.
    pub fn read<D: DataDev<W>, I: InfoDev<W>>(
        &mut self,
        loan: &mut Loan<W, D, I>,
        part: Part,
    ) -> Result<(), ReadRefusal>
        requires given { self.old.given ≡ ToRead part }
        requires path { loan.old.store.path ≡ self.old.reading.path }
        requires size { loan.old.store.size ≡ self.old.reading.size }
        requires block_size { loan.old.store.block_size ≡ self.old.reading.block_size }
        requires told { IsTrue W.told → IsTrue D.told }
        ensures ok { OnOk result (self.new ≡ record self.old { given = Nothing }) }
        ensures err { OnErr result (self.new ≡ self.old) }
        ensures loan { ReadsLent W.told W.files D.told I.told D.faults D.seen I.seen loan.old part.block result loan.new }
    {
        let Hand::Disk(segment) = self.hand else {
            unreachable!()
        };
        let end = segment.at + segment.part.len as usize;
        match loan.read_part(part, &mut self.bytes[segment.at..end]) {
            Ok(()) => {
                self.hand = Hand::Nothing;
                self.served = plus(self.served, segment);
                Ok(())
            }
            Err(refusal) => Err(refusal),
        }
    }

    /// Tells that the part that was given out couldn't be read from disk: it is owed a direct read, which is the next action.
    pub fn owe(&mut self, leave: Leave<W>)
        requires given { self.old.given ≡ ToRead leave.part }
        requires leave { IsLeaveOf self.old.reading leave }
        ensures { Owes self.old self.new }
    {
        let Hand::Disk(segment) = self.hand else {
            unreachable!()
        };
        self.hand = Hand::Nothing;
        self.counts.directs += 1;
        add_owed(&mut self.owed, leave, segment);
    }
}
