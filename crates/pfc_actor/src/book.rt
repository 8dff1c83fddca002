// What a client asked, what it was told, and what it has open.
ghost use Rattle.std.specs.Prelude.{◌≡◌, ◌<◌, ◌≤◌, ◌+◌, ◌++◌, ◌∷◌, [], ℕ, List, Option, Some, None, option_map, replicate, length, true, false, slice_get, slice_set, sum_by, IfOk, OnOk, OnErr, IsTrue, ◌↔◌, IfSome, IfNone, IsSome, MatchOption, Ok};
ghost use Rattle.pfc_core.specs.Marks.{Mark, StayKind};
ghost use Rattle.pfc_world.specs.Files.{HasSize};
ghost use Rattle.pfc_client.specs.declared.reply.Reply.TheVariants as r;
ghost use Rattle.pfc_client.specs.declared.request.Request.TheVariants as q;
ghost use Rattle.pfc_client.specs.Requests.{request_of};
ghost use Rattle.pfc_client.specs.Session.{place_at, is_free};
ghost use Rattle.pfc_client.specs.Permitted.{Permits, Table, Walk, nothing_open};
ghost use Rattle.pfc_actor.specs.Books.{BookView, table, open_weight, IsAnswered, IsNext, IsStay, LacksMemory};

use pfc_base::Memory;
use pfc_client::{DESCRIPTORS, Octets, Reply, Request, RequestRefusal, Session, read_request};
use pfc_core::Stay;
use pfc_world::World;
use std::alloc::Global;
use std::marker::Model;

/// The request lines of one client, the replies so far, and the files that it has open.
#[derive(Drop)]
pub struct Book<W: World> {
    number: u32,
    asked: Vec<Octets>,
    replies: Vec<Reply>,
    stays: Session<Stay<W>>,
    shut: bool,
}

impl<W: World> Model for Book<W> {
    ghost use Rattle.std.specs.Prelude.{vec_capacity};
    ghost use Rattle.pfc_actor.specs.Books.{BookView, IsBook};

    ghost Value = { BookView };

    ghost view = { λ b. record { number = b.number; asked = b.asked.items; replies = b.replies.items; stays = b.stays; shut = b.shut } };

    ghost invariant = { λ b. IsBook W.told W.files b.number b.asked.items b.replies.items b.stays b.shut (vec_capacity b.replies) };
}

/// The bytes of a line, copied.
fn copy_line(alloc: Global, line: &[u8]) -> Result<Octets, Memory>
    ensures { IfOk result (λ octets. octets ≡ line.now) }
{
    let mut bytes = Vec::with_capacity(alloc, line.len())?;
    bytes.extend_from_slice(line)?;
    Ok(Octets::new(bytes))
}

impl<W: World> Book<W> {
    /// A client of this number that was asked nothing yet.
    pub fn new(alloc: Global, number: u32) -> Result<Book<W>, Memory>
        ensures { IfOk result (λ book. book ≡ record { number = number; asked = []; replies = []; stays = replicate 16 None; shut = false }) }
    {
        let stays = Session::new(alloc)?;
        Ok(Book {
            number,
            asked: Vec::new(alloc),
            replies: Vec::new(alloc),
            stays,
            shut: false,
        })
    }

    /// The client is asked one more line. Room for its reply is taken too.
    pub fn ask(&mut self, alloc: Global, line: &[u8]) -> Result<(), Memory>
        ensures ok { OnOk result (self.new ≡ record self.old { asked = self.old.asked ++ line.now ∷ [] }) }
        ensures memory { OnErr result (self.new ≡ self.old) }
    {
        let line = copy_line(alloc, line)?;
        self.asked.reserve(1)?;
        let wanted = self.asked.len() + 1 - self.replies.len();
        self.replies.reserve(wanted)?;
        self.asked.push_reserved(line);
        Ok(())
    }

    /// Hands out what the type keeps: there are no more replies than lines.
    pub fn keeps(&self)
        ensures { length self.now.replies ≤ length self.now.asked }
    {
        let _replies = self.replies.len();
    }

    /// The number of the client.
    pub fn number(&self) -> u32
        ensures { result ≡ self.now.number }
    {
        self.number
    }

    /// The request that is answered next, or why its line is none; `None` where each line has its reply. The pieces of a
    /// request take memory.
    pub fn request(&self, alloc: Global) -> Result<Option<Result<Request, RequestRefusal>>, Memory>
        ensures ok { IfOk result (λ next. MatchOption next (length self.now.asked ≤ length self.now.replies) (IsNext self.now)) }
        ensures memory { OnErr result (LacksMemory self.now) }
    {
        let next = self.replies.len();
        if next >= self.asked.len() {
            return Ok(None);
        }
        Ok(Some(read_request(alloc, self.asked[next].as_slice())?))
    }

    /// Answers the request, with nothing opened or closed.
    pub fn reply(&mut self, reply: Reply)
        requires going { self.old.shut ≡ false }
        requires asked { length self.old.replies < length self.old.asked }
        requires permitted { (line : List ℕ) → slice_get self.old.asked (length self.old.replies) ≡ Some line → Permits W.told W.files (table self.old) (request_of line) reply (table self.old) }
        ensures { self.new ≡ record self.old { replies = self.old.replies ++ reply ∷ [] } }
    {
        self.replies.push_reserved(reply);
    }

    /// Whether the number is a descriptor's and nothing is open there.
    pub fn is_free(&self, number: u64) -> bool
        ensures { result ≡ is_free self.now.stays number }
    {
        self.stays.is_free(number)
    }

    /// The number of the core of the file that is open at the descriptor.
    pub fn instance_at(&self, number: u64) -> Option<u64>
        ensures { result ≡ option_map (λ m. m.instance) (place_at self.now.stays number) }
    {
        match self.stays.get(number) {
            None => None,
            Some(stay) => Some(stay.instance()),
        }
    }

    /// Answers an open with the file's size.
    pub fn opened(&mut self, number: u64, size: u64, stay: Stay<W>)
        requires going { self.old.shut ≡ false }
        requires next { IsNext self.old (Ok (q.Open number stay.path)) }
        requires free { is_free self.old.stays number ≡ true }
        requires size { size ≡ stay.size }
        requires right { HasSize W.told W.files stay.path stay.size }
        requires mine { IsStay self.old.number stay }
        ensures weighs { (w : Mark → ℕ) → open_weight w self.new.stays ≡ open_weight w self.old.stays + w stay }
        ensures opened { self.new ≡ record self.old { replies = self.old.replies ++ r.Size size ∷ []; stays = slice_set self.old.stays number (Some stay) } }
    {
        self.stays.sixteen();
        match self.stays.put(number, stay) {
            Ok(()) => self.replies.push_reserved(Reply::Size(size)),
            Err(_) => unreachable!(),
        }
    }

    /// Answers a close of an open descriptor, and gives what was open there.
    pub fn closed(&mut self, number: u64) -> Option<Stay<W>>
        requires going { self.old.shut ≡ false }
        requires next { IsNext self.old (Ok (q.Close number)) }
        requires is { IsSome (place_at self.old.stays number) }
        ensures stay { result ≡ place_at self.old.stays number }
        ensures mine { IfSome result (λ stay. IsStay self.old.number stay) }
        ensures weighs { IfSome result (λ stay. (w : Mark → ℕ) → open_weight w self.new.stays + w stay ≡ open_weight w self.old.stays) }
        ensures closed { self.new ≡ record self.old { replies = self.old.replies ++ r.Closed ∷ []; stays = slice_set self.old.stays number None } }
    {
        self.replies.push_reserved(Reply::Closed);
        self.stays.take(number)
    }

    /// Whether each request has its reply.
    pub fn is_answered(&self) -> bool
        ensures exact { IsTrue result ↔ (length self.now.replies ≡ length self.now.asked) }
        ensures walk { IsTrue result → (end : Table) × Walk W.told W.files nothing_open self.now.asked self.now.replies end }
    {
        self.replies.len() == self.asked.len()
    }

    /// The lowest descriptor at which something is open.
    pub fn first_open(&self) -> Option<u64>
        ensures some { IfSome result (λ n. IsSome (place_at self.now.stays n)) }
        ensures none { IfNone result ((w : Mark → ℕ) → open_weight w self.now.stays ≡ 0) }
    {
        self.stays.sixteen();
        for number in 0..16 {
            if self.stays.get(number).is_some() {
                return Some(number);
            }
        }
        None
    }

    /// Whether files were closed without its asking.
    pub fn is_shut(&self) -> bool
        ensures { result ≡ self.now.shut }
    {
        self.shut
    }

    /// Gives back what is open at a descriptor, with no reply. The client isn't asked any more.
    pub fn shut(&mut self, number: u64) -> Option<Stay<W>>
        requires { length self.old.replies ≡ length self.old.asked }
        ensures stay { result ≡ place_at self.old.stays number }
        ensures mine { IfSome result (λ stay. IsStay self.old.number stay) }
        ensures weighs { IfSome result (λ stay. (w : Mark → ℕ) → open_weight w self.new.stays + w stay ≡ open_weight w self.old.stays) }
        ensures rest { self.new ≡ record self.old { stays = slice_set self.old.stays number None; shut = true } }
    {
        self.shut = true;
        self.stays.take(number)
    }

    /// Hands over the replies.
    pub fn end(self) -> Vec<Reply>
        ensures { result.items ≡ self.replies }
    {
        let Book { replies, .. } = self;
        replies
    }
}
