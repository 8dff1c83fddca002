// The accesses to a core's file.
ghost use Rattle.std.specs.Prelude.{◌≡◌, ◌==◌, Some, if◌then◌else◌, OnOk, OnErr};
ghost use Rattle.pfc_core.specs.Access as access;

use pfc_access::{attach, detach};
use pfc_base::Memory;
use pfc_cinfo::Head;
use pfc_log::Served;
use std::alloc::Global;
use std::marker::Model;

/// What the next cinfo says of accesses, and of the access that lasts the number of its reads and their bytes.
#[derive(Drop)]
pub(crate) struct Access {
    head: Head,
    ios: u32,
    served: Served,
}

impl Model for Access {
    ghost use Rattle.pfc_core.specs.Access.{AccessView};

    ghost Value = { AccessView };

    ghost view = { λ a. record { head = a.head; ios = a.ios; served = a.served } };
}

const NO_BYTES: Served = Served {
    hit: 0,
    missed: 0,
    bypassed: 0,
};

impl Access {
    /// None was begun since the file's cinfo had this head.
    pub fn new(head: Head) -> Access
        ensures { result ≡ access.as_found head }
    {
        Access {
            head,
            ios: 0,
            served: NO_BYTES,
        }
    }

    pub fn head(&self) -> &Head
        ensures { result.now ≡ self.now.head }
    {
        &self.head
    }

    /// One begins at this moment, in seconds. Without memory nothing changes.
    pub fn begin(&mut self, alloc: Global, now: u64) -> Result<(), Memory>
        ensures ok { OnOk result (self.new ≡ access.begun now self.old) }
        ensures memory { OnErr result (self.new ≡ self.old) }
    {
        attach(alloc, &mut self.head, now)?;
        self.ios = 0;
        self.served = NO_BYTES;
        Ok(())
    }

    /// One begins where nobody has the file open yet.
    pub fn come_in(&mut self, alloc: Global, now: u64, stays: usize) -> Result<(), Memory>
        ensures ok { OnOk result (self.new ≡ (if 0 == stays then access.begun now self.old else self.old)) }
        ensures memory { OnErr result (self.new ≡ self.old) }
    {
        if stays != 0 {
            return Ok(());
        }
        self.begin(alloc, now)
    }

    /// A read of it ended, with these bytes. Sums stay at the greatest number.
    pub fn read(&mut self, served: &Served)
        ensures { self.new ≡ access.with_read (Some served.now) self.old }
    {
        let so_far = self.served;
        self.ios = self.ios.saturating_add(1);
        self.served = Served {
            hit: so_far.hit.saturating_add(served.hit),
            missed: so_far.missed.saturating_add(served.missed),
            bypassed: so_far.bypassed.saturating_add(served.bypassed),
        };
    }

    /// It ends at this moment, in seconds.
    pub fn end(&mut self, alloc: Global, now: u64)
        ensures { self.new ≡ access.ended now self.old }
    {
        if self.head.records.as_slice().len() == 0 {
            return;
        }
        detach(alloc, &mut self.head, now, &self.served, self.ios);
    }

    /// It ends where nobody has the file open any more.
    pub fn go_out(&mut self, alloc: Global, now: u64, stays: usize)
        ensures { self.new ≡ (if 0 == stays then access.ended now self.old else self.old) }
    {
        if stays == 0 {
            self.end(alloc, now);
        }
    }
}
