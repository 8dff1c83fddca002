// How a client takes up a request.
ghost use Rattle.std.specs.Prelude.{◌≡◌, ◌<◌, ◌≤◌, length, false, Ok, Err};
ghost use Rattle.pfc_client.specs.declared.request.Request.TheVariants as q;
ghost use Rattle.pfc_actor.specs.StageView as st;
ghost use Rattle.pfc_actor.specs.Seen.{seen};
ghost use Rattle.pfc_actor.specs.Books.{IsNext};
ghost use Rattle.pfc_actor.specs.Stages.{AtWork, IsAsked};
ghost use Rattle.pfc_actor.specs.Steps.{IsCaused, Own};

use crate::book::Book;
use crate::stage::{Stage, Wanted};
use pfc_base::Path;
use pfc_client::{Reply, Request, RequestRefusal};
use pfc_core::Line;
use pfc_span::{Pieces, asked};
use pfc_world::{Origin, World};
use std::alloc::Global;

/// The most bytes of one request.
const READ_LIMIT: u64 = 16777216;

/// Answers a line that is no request.
fn refuse<W: World, O: Origin<W>>(
    book: &mut Book<W>,
    line: &Line<W, O>,
    refusal: RequestRefusal,
) -> Stage<W>
    requires going { book.old.shut ≡ false }
    requires next { IsNext book.old (Err refusal) }
    requires caused { IsCaused book.old line.now st.Rest }
    ensures work { AtWork book.new (seen result) }
    ensures caused { IsCaused book.new line.now (seen result) }
    ensures step { Own book.old line.now st.Rest book.new line.now (seen result) }
{
    match refusal {
        RequestRefusal::Form => {
            book.reply(Reply::Request);
            Stage::Rest
        }
        RequestRefusal::Path => {
            book.reply(Reply::Path);
            Stage::Rest
        }
    }
}

/// Asks the origin for the size of a file that is to be opened.
fn ask_size<W: World, O: Origin<W>>(
    book: &mut Book<W>,
    line: &mut Line<W, O>,
    number: u64,
    path: &Path,
) -> Stage<W>
    requires work { IsAsked book.old (q.Open number path.now) }
    requires caused { IsCaused book.old line.old st.Rest }
    ensures work { AtWork book.new (seen result) }
    ensures caused { IsCaused book.new line.new (seen result) }
    ensures step { Own book.old line.old st.Rest book.new line.new (seen result) }
{
    if !book.is_free(number) {
        book.reply(Reply::Descriptor);
        return Stage::Rest;
    }
    match line.stat(path) {
        Err(_) => {
            book.reply(Reply::Fetch);
            Stage::Rest
        }
        Ok(None) => {
            book.reply(Reply::NoFile);
            Stage::Rest
        }
        Ok(Some(known)) => Stage::Wanted(Wanted::new(number, known)),
    }
}

/// Sees whether a read can be planned.
fn see_read<W: World, O: Origin<W>>(
    book: &mut Book<W>,
    line: &Line<W, O>,
    number: u64,
    pieces: Pieces,
) -> Stage<W>
    requires work { IsAsked book.old (q.Read number pieces) }
    requires caused { IsCaused book.old line.now st.Rest }
    ensures work { AtWork book.new (seen result) }
    ensures caused { IsCaused book.new line.now (seen result) }
    ensures step { Own book.old line.now st.Rest book.new line.now (seen result) }
{
    if book.instance_at(number).is_none() {
        book.reply(Reply::Descriptor);
        return Stage::Rest;
    }
    if asked(pieces.as_slice()) > READ_LIMIT {
        book.reply(Reply::Range);
        return Stage::Rest;
    }
    Stage::Planning(number, pieces)
}

/// Sees whether there is anything to close.
fn see_close<W: World, O: Origin<W>>(book: &mut Book<W>, line: &Line<W, O>, number: u64) -> Stage<W>
    requires work { IsAsked book.old (q.Close number) }
    requires caused { IsCaused book.old line.now st.Rest }
    ensures work { AtWork book.new (seen result) }
    ensures caused { IsCaused book.new line.now (seen result) }
    ensures step { Own book.old line.now st.Rest book.new line.now (seen result) }
{
    if book.instance_at(number).is_none() {
        book.reply(Reply::Descriptor);
        return Stage::Rest;
    }
    Stage::Closing(number)
}

/// Takes up the next request, or answers it for want of the memory that its pieces take.
pub(crate) fn take<W: World, O: Origin<W>>(
    alloc: Global,
    book: &mut Book<W>,
    line: &mut Line<W, O>,
) -> Stage<W>
    requires work { AtWork book.old st.Rest }
    requires caused { IsCaused book.old line.old st.Rest }
    ensures work { AtWork book.new (seen result) }
    ensures caused { IsCaused book.new line.new (seen result) }
    ensures step { Own book.old line.old st.Rest book.new line.new (seen result) }
{
    let Ok(next) = book.request(alloc) else {
        book.reply(Reply::Memory);
        return Stage::Rest;
    };
    let Some(request) = next else {
        return Stage::Rest;
    };
    match request {
        Err(refusal) => refuse(book, line, refusal),
        Ok(Request::Open { number, path }) => ask_size(book, line, number, &path),
        Ok(Request::Read { number, pieces }) => see_read(book, line, number, pieces),
        Ok(Request::Close { number }) => see_close(book, line, number),
    }
}
