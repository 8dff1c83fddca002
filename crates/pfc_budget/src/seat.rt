ghost use Rattle.std.specs.Prelude.{◌≡◌, ℕ, ◌+◌, ◌-◌, ◌*◌, ◌^◌, ◌<◌, ◌≤◌, IfOk, IfErr, OnOk, OnErr};
ghost use Rattle.pfc_budget.specs.Account.{MayFind};

use crate::rule::{Claims, Gives, Limited, Loads, Seats, View, Withdraws};
use atomic_table::Table;
use pfc_base::Memory;
use std::alloc::Global;
use std::marker::Model;
use std::sync::Arc;

/// A claim was refused: the bytes that its step found in the budget's word, those that it wanted, and the limit.
#[derive(Clone, Copy, Debug, PartialEq, Eq)]
pub struct Full {
    pub found: u64,
    pub want: u64,
    pub limit: u64,
}

type Word = Table<(), View, u64, Limited, Global>;

/// A limit on the bytes that its seats hold together. It is made with its first seat, and lives as long as any.
pub struct Budget;

/// A holder of bytes of one budget. A thread claims and gives through a seat of its own.
#[derive(Drop)]
pub struct Seat {
    word: Arc<Word, Global>,
    place: atomic_table::Seat<(), View>,
    limit: u64,
    held: u64,
}

impl Model for Seat {
    ghost use Rattle.pfc_budget.specs.Account.{Account};

    ghost Value = { Account };

    ghost use Rattle.pfc_budget.specs.Seat.{account_of, IsSeated};

    ghost view = { account_of };

    ghost invariant = { IsSeated };
}

impl Budget {
    /// A budget of `limit` bytes of which nothing is held, and its first seat, of which 65536 others may be split.
    pub fn start(alloc: Global, limit: u64) -> Result<Seat, Memory>
        requires { limit ≤ 2 ^ 60 }
        ensures { IfOk result (λ s. (s.limit ≡ limit) × (s.held ≡ 0) × (s.room ≡ 65536)) }
    {
        let (table, place) = Word::of_words(alloc, &[0], &limit)?;
        let Ok(word) = Arc::new(alloc, table) else {
            return Err(Memory);
        };
        Ok(Seat {
            word,
            place,
            limit,
            held: 0,
        })
    }
}

impl Seat {
    /// The bytes that this seat holds.
    pub fn held(&self) -> u64
        ensures held { result ≡ self.now.held }
        ensures within { result ≤ self.now.limit }
    {
        self.held
    }

    /// The most bytes that all seats of the budget may hold together.
    pub fn limit(&self) -> u64
        ensures limit { result ≡ self.now.limit }
        ensures most { result ≤ 2 ^ 60 }
    {
        self.limit
    }

    /// Claims bytes, by one step that adds them to the word. A refused claim takes them away by a second step,
    /// so that for a moment others may find more than is held.
    pub fn claim(&mut self, want: u64) -> Result<(), Full>
        requires { (0 < want) × (want ≤ 16777216) }
        ensures ok { OnOk result (self.new ≡ record self.old { held = self.old.held + want }) }
        ensures within { OnOk result (self.new.held ≤ self.old.limit) }

        // Refused only where what its step found has no room for it.
        ensures full { IfErr result (λ f. (f.want ≡ want) × (f.limit ≡ self.old.limit) × (self.old.limit < f.found + want)) }
        ensures found { IfErr result (λ f. MayFind self.old f.found) }
        ensures err { OnErr result (self.new ≡ self.old) }
    {
        let found = self
            .word
            .shared
            .fetch_add::<Claims>(&mut self.place, 0, want);
        let fits = found + want <= self.limit;
        if fits {
            self.held += want;
            return Ok(());
        }
        self.word
            .shared
            .fetch_sub::<Withdraws>(&mut self.place, 0, want);
        Err(Full {
            found,
            want,
            limit: self.limit,
        })
    }

    /// Gives bytes back.
    pub fn give(&mut self, n: u64)
        requires { n ≤ self.old.held }
        ensures { self.new ≡ record self.old { held = self.old.held - n } }
    {
        self.word.shared.fetch_sub::<Gives>(&mut self.place, 0, n);
        self.held -= n;
    }

    /// The bytes in the budget's word: those that all seats hold, and those of claims that are being withdrawn.
    pub fn load(&mut self) -> u64
        ensures same { self.new ≡ self.old }
        ensures found { MayFind self.old result }
    {
        self.word.shared.load::<Loads>(&mut self.place, 0)
    }

    /// A new seat of the same budget, which holds nothing and of which none can be split.
    pub fn split(&mut self) -> Result<Seat, Memory>
        requires { 0 < self.old.room }
        ensures new { IfOk result (λ s. s ≡ record self.old { held = 0; room = 0 }) }
        ensures ok { OnOk result (self.new ≡ record self.old { room = self.old.room - 1 }) }
        ensures err { OnErr result (self.new ≡ self.old) }
    {
        let word = Arc::try_clone(&self.word)?;
        let place = self.word.shared.split_seat::<Seats>(&mut self.place);
        Ok(Seat {
            word,
            place,
            limit: self.limit,
            held: 0,
        })
    }

    /// Takes in another seat of the same budget, with what it holds and the seats that may be split from it.
    pub fn join(&mut self, other: Seat)
        requires { other.budget ≡ self.old.budget }
        ensures { self.new ≡ record self.old { held = self.old.held + other.held; room = self.old.room + other.room + 1 } }
    {
        let Seat {
            word: _,
            place,
            limit: _,
            held,
        } = other;
        self.word.shared.join_seat::<Seats>(&mut self.place, place);
        self.held += held;
        // The joining step tells nothing of the rule; a load does, by which the sum is within the limit.
        self.word.shared.load::<Loads>(&mut self.place, 0);
    }
}
