// How a client opens a file, and closes it.
ghost use Rattle.std.specs.Prelude.{◌≡◌, ◌<◌, ◌≤◌, Some, IfSome, length};
ghost use Rattle.pfc_core.specs.Marks.{Mark};
ghost use Rattle.pfc_client.specs.Session.{place_at};
ghost use Rattle.pfc_actor.specs.StageView as st;
ghost use Rattle.pfc_actor.specs.Seen.{seen};
ghost use Rattle.pfc_actor.specs.Stages.{AtWork, Opens};
ghost use Rattle.pfc_log.specs.Charges.{GrowsCalmly};
ghost use Rattle.pfc_actor.specs.Clients.{EntersAt};
ghost use Rattle.pfc_actor.specs.Steps.{IsCaused, Knows, Own, Step};

use crate::book::Book;
use crate::stage::{Stage, Wanted};
use pfc_client::Reply;
use pfc_core::{FileCore, Line, Strayed};
use pfc_world::{Clock, Origin, World};
use std::alloc::Global;

/// Opens the file: the end of an open. It does so at the moment, in seconds, at which the same open opened the store; where there
/// is none the clock is read.
pub(crate) fn open<W: World, O: Origin<W>, K: Clock>(
    alloc: Global,
    clock: &mut K,
    book: &mut Book<W>,
    line: &Line<W, O>,
    core: &mut FileCore<W>,
    wanted: Wanted<W>,
    moment: Option<u64>,
) -> Stage<W>
    requires work { Opens book.old wanted.number wanted.path }
    requires here { core.old.path ≡ wanted.path }
    requires caused { IsCaused book.old line.now (st.Making wanted) }
    ensures work { AtWork book.new (seen result) }
    ensures caused { IsCaused book.new line.now (seen result) }
    ensures making { Step book.old line.now (st.Making wanted) core.old book.new line.now (seen result) core.new }
    ensures joining { Step book.old line.now (st.Joining wanted) core.old book.new line.now (seen result) core.new }
    ensures calm { GrowsCalmly core.old.entries core.new.entries }
    ensures moment { IfSome moment (λ now. EntersAt now core.old core.new) }
{
    let now = match moment {
        Some(moment) => moment,
        None => clock.now(),
    };
    match core.attach(alloc, book.number(), now) {
        Ok(stay) => {
            let size = stay.size();
            book.opened(wanted.number(), size, stay);
            Stage::Rest
        }
        Err(_) => {
            book.reply(Reply::Memory);
            Stage::Rest
        }
    }
}

/// Answers an open for whose core there is no memory.
pub(crate) fn without<W: World, O: Origin<W>>(
    book: &mut Book<W>,
    line: &Line<W, O>,
    wanted: Wanted<W>,
) -> Stage<W>
    requires work { Opens book.old wanted.number wanted.path }
    requires caused { IsCaused book.old line.now (st.Wanted wanted) }
    ensures work { AtWork book.new (seen result) }
    ensures caused { IsCaused book.new line.now (seen result) }
    ensures wanted { Own book.old line.now (st.Wanted wanted) book.new line.now (seen result) }
    ensures making { Own book.old line.now (st.Making wanted) book.new line.now (seen result) }
    ensures joining { Own book.old line.now (st.Joining wanted) book.new line.now (seen result) }
{
    drop(wanted);
    book.reply(Reply::Memory);
    Stage::Rest
}

/// Closes the file, at the moment that the clock tells.
pub(crate) fn close<W: World, O: Origin<W>, K: Clock>(
    alloc: Global,
    clock: &mut K,
    book: &mut Book<W>,
    line: &Line<W, O>,
    core: &mut FileCore<W>,
    number: u64,
) -> Stage<W>
    requires work { AtWork book.old (st.Closing number) }
    requires knows { Knows book.old (st.Closing number) core.old }
    requires here { (stay : Mark) → place_at book.old.stays number ≡ Some stay → stay.instance ≡ core.old.instance }
    requires caused { IsCaused book.old line.now (st.Closing number) }
    ensures work { AtWork book.new (seen result) }
    ensures caused { IsCaused book.new line.now (seen result) }
    ensures step { Step book.old line.now (st.Closing number) core.old book.new line.now (seen result) core.new }
    ensures calm { GrowsCalmly core.old.entries core.new.entries }
{
    let Some(stay) = book.closed(number) else {
        return Stage::Closed;
    };
    match core.detach(alloc, stay, clock.now()) {
        Ok(()) => Stage::Closed,
        Err(Strayed { token: _, why: _ }) => Stage::Closed,
    }
}

/// Closes the lowest descriptor that is open, without a reply, where its file is of this core.
pub(crate) fn shut<W: World, O: Origin<W>, K: Clock>(
    alloc: Global,
    clock: &mut K,
    book: &mut Book<W>,
    line: &Line<W, O>,
    core: &mut FileCore<W>,
)
    requires answered { length book.old.replies ≡ length book.old.asked }
    requires knows { Knows book.old st.Rest core.old }
    requires caused { IsCaused book.old line.now st.Rest }
    ensures work { AtWork book.new st.Rest }
    ensures caused { IsCaused book.new line.now st.Rest }
    ensures step { Step book.old line.now st.Rest core.old book.new line.now st.Rest core.new }
    ensures calm { GrowsCalmly core.old.entries core.new.entries }
{
    let Some(number) = book.first_open() else {
        return;
    };
    let Some(instance) = book.instance_at(number) else {
        return;
    };
    if instance != core.instance() {
        return;
    }
    let Some(stay) = book.shut(number) else {
        return;
    };
    match core.detach(alloc, stay, clock.now()) {
        Ok(()) => (),
        Err(_) => unreachable!(),
    }
}
