//! Clients over the world of rows, in which `/a` has 8193 bytes.
ghost use Rattle.std.specs.Prelude.{◌≡◌, ℕ, ◌+◌, [], IfOk, sum_by};
ghost use Rattle.pfc_core.specs.Marks.{Mark};
ghost use Rattle.pfc_actor.specs.Clients.{holds};

use crate::{Book, Client, Place};
use pfc_base::{BlockSet, Path, block_count};
use pfc_cinfo::{Head, Records};
use pfc_client::{Reply, push_reply};
use pfc_core::{FileCore, Line};
use pfc_log::push_log;
use pfc_memory::{ListClock, MemoryHost, MemoryLink, RowWorld};
use pfc_world::Host;
use pfc_writer::WriteQueue;
use std::alloc::Global;
use std::test::Fail;

type RowClient = Client<RowWorld, MemoryLink<RowWorld>>;

type RowHost = MemoryHost<RowWorld>;

const LOG: &[u8] = b"log /a stored -
opened 1
begin 0 0 1
begin 1 1 1
landed 0
dropped 0 full 0
landed 1
dropped 1 full 0
served 1 0 2 0
left 0
left 1
begin 2 1 1
begin 3 2 1
landed 2
dropped 1 full 0
landed 3
dropped 2 full 0
served 1 0 3 0
left 1
left 2
closed 1
";

const REPLIES: &[u8] = b"ok 8193
data 2 4f50
data 3 9e9fa0
ok
error descriptor
";

/// A host of which the calls of link 1 with these numbers fail.
fn host_of(alloc: Global, fails: &[u64]) -> Result<RowHost, Fail> {
    let mut named = Vec::new(alloc);
    for fail in fails {
        named.push((1, *fail))?;
    }
    Ok(MemoryHost::new(alloc, Vec::new(alloc), named, Vec::new(alloc))?)
}

/// Client 1, which is asked these lines.
fn client_of(alloc: Global, host: &mut RowHost, lines: &[&str]) -> Result<RowClient, Fail>
    ensures { IfOk result (λ client. (w : Mark → ℕ) → holds w client ≡ 0) }
{
    let link = host.link(alloc, 1)?;
    let mut client = Client::new(Book::new(alloc, 1)?, link);
    for line in lines {
        if client.ask(alloc, line.as_bytes()).is_err() {
            let _ = client.end();
            return Err(Fail::new("no memory"));
        }
    }
    Ok(client)
}

/// The replies as a client is told them, each on a line.
fn text_of(alloc: Global, replies: &[Reply]) -> Result<Vec<u8>, Fail> {
    let mut text = Vec::new(alloc);
    for reply in replies {
        push_reply(alloc, &mut text, reply)?;
        text.push(b'\n')?;
    }
    Ok(text)
}

/// The replies of a client whose second call fails. It takes each step on no core, and finds no memory for one.
fn answer_alone(alloc: Global) -> Result<(Place, Place, Vec<Reply>), Fail> {
    let lines = [
        "nonsense",
        "read 0 0 1",
        "open 0 /none",
        "open 1 /a",
        "open 2 /a",
    ];
    let mut client = client_of(alloc, &mut host_of(alloc, &[1])?, &lines)?;
    for _ in 0..5 {
        client.step_alone(alloc);
    }
    let wants = client.place();
    client.enter(Some(0));
    let enters = client.place();
    client.give_up();
    let (_number, _link, replies) = client.end();
    Ok((wants, enters, replies))
}

#[test]
fn a_client_answers_what_needs_no_core(rt: HostRuntime) -> Result<(), Fail> {
    let (wants, enters, replies) = answer_alone(rt.alloc())?;
    let text = text_of(rt.alloc(), &replies)?;
    assert_eq!(rt; wants, Place::Wants);
    assert_eq!(rt; enters, Place::Enters);
    assert_eq!(rt;
        text.as_slice(),
        b"error request\nerror descriptor\nerror nofile\nerror fetch\nerror memory\n".as_slice()
    );
    Ok(())
}

/// Core 0, of the file `/a` in blocks of 4096 bytes.
fn core_of(alloc: Global, host: &mut RowHost) -> Result<FileCore<RowWorld>, Fail>
    ensures { IfOk result (λ core. (core.block_size ≡ 4096) × (core.out ≡ [])) }
{
    let mut line = Line::new(host.link(alloc, 2)?);
    let path = Path::read(b"/a")?;
    let known = line.stat(&path)?.ok_or("no file")?;
    let count = block_count(known.size(), 4096);
    if count > 16777216 {
        return Err(Fail::new("too many blocks"));
    }
    let start = BlockSet::new(alloc, count as u32)?;
    let head = Head {
        created: 0,
        accesses: 0,
        records: Records::new(alloc),
    };
    Ok(FileCore::new(alloc, 0, known, 4096, start, head)?)
}

/// One step of the only client of a core. Nothing of the file is on disk.
fn step(
    alloc: Global,
    clock: &mut ListClock,
    client: &mut RowClient,
    core: &mut FileCore<RowWorld>,
    queue: &mut WriteQueue<RowWorld>,
)
    requires blocks { core.old.block_size ≡ 4096 }
    requires tokens { (w : Mark → ℕ) → holds w client.old + sum_by w queue.old.jobs ≡ sum_by w core.old.out }
    ensures blocks { core.new.block_size ≡ 4096 }
    ensures tokens { (w : Mark → ℕ) → holds w client.new + sum_by w queue.new.jobs ≡ sum_by w core.new.out }
{
    core.own();
    match client.place() {
        Place::Alone => client.step_alone(alloc),
        Place::Wants => client.enter(None),
        Place::Enters => {
            let Some(wanted) = client.entering() else {
                return;
            };
            if core.known().same(&wanted.known()) {
                client.step_at(alloc, clock, core);
            }
        }
        Place::Puts => client.put(queue),
        Place::Core(instance) => {
            if instance == core.instance() {
                client.step_at(alloc, clock, core);
            }
        }
        Place::Lends(_) | Place::Reads(_) | Place::Returns(_) | Place::Leaves(_) => (),
    }
}

/// So many steps.
fn drive(
    alloc: Global,
    clock: &mut ListClock,
    client: &mut RowClient,
    core: &mut FileCore<RowWorld>,
    queue: &mut WriteQueue<RowWorld>,
    steps: u32,
)
    requires blocks { core.old.block_size ≡ 4096 }
    requires tokens { (w : Mark → ℕ) → holds w client.old + sum_by w queue.old.jobs ≡ sum_by w core.old.out }
{
    for _step in 0..steps {
        step(alloc, clock, client, core, queue);
    }
}

/// The replies to these lines, and the log. The queue has room for no job.
fn play(alloc: Global, lines: &[&str]) -> Result<(Vec<Reply>, Vec<u8>), Fail> {
    let mut host = host_of(alloc, &[])?;
    let mut core = core_of(alloc, &mut host)?;
    let mut queue = WriteQueue::new(alloc, 0)?;
    let mut client = client_of(alloc, &mut host, lines)?;
    let mut clock = ListClock::new(Vec::new(alloc));
    drive(alloc, &mut clock, &mut client, &mut core, &mut queue, 40);
    let (_number, _link, replies) = client.end();
    let mut log = Vec::new(alloc);
    push_log(alloc, &mut log, core.known().path(), core.log())?;
    Ok((replies, log))
}

#[test]
fn a_client_opens_reads_and_closes(rt: HostRuntime) -> Result<(), Fail> {
    let alloc = rt.alloc();
    let lines = [
        "open 3 /a",
        "read 3 4095 2",
        "read 3 8190 100",
        "close 3",
        "read 3 0 1",
    ];
    let (replies, log) = play(alloc, &lines)?;
    let text = text_of(alloc, &replies)?;
    assert_eq!(rt; text.as_slice(), REPLIES);
    assert_eq!(rt; log.as_slice(), LOG);
    Ok(())
}
