// What the catalog keeps of one file, and how the calls change it.
ghost use Rattle.std.specs.Prelude.{◌≡◌, IfSome, is_some};
ghost use Rattle.pfc_catalog.specs.Entry.{fresh, shell_of, place_of, live_shell, is_candidate, with_state, opened, abandoned, closed, sent, homed, grown, gone, kept, HoldsNoOther};
ghost use Rattle.pfc_catalog.specs.Moves.{moved};

/// Who holds a file.
#[derive(Clone, Copy, Debug, PartialEq, Eq)]
pub enum State {
    /// Nobody: its volume is in the depot.
    Home,
    /// Its volume is being taken out for this shell (below 256), under this instance number.
    Opening {
        shell: u32,
        instance: u64,
    },
    /// It is open, with so many descriptors; the count stays at `2^64 - 1`.
    Live {
        shell: u32,
        instance: u64,
        count: u64,
    },
    /// It was closed, and its volume is on the way home.
    Away {
        shell: u32,
        instance: u64,
    },
    /// A purge removes it.
    Victim,
}

/// A file of the catalog.
#[derive(Clone, Copy, Debug, PartialEq, Eq)]
pub struct Entry {
    pub state: State,
    /// The bytes that it takes on the disk; cinfo files count nothing.
    pub usage: u64,
    /// The moment of the last access, in seconds.
    pub last: u64,
    /// Its volume failed, so it isn't purged.
    pub marked: bool,
}

/// A call that changes one file.
#[derive(Clone, Copy, Debug, PartialEq, Eq)]
pub(crate) enum Move {
    Opened(Option<u64>),
    Abandon,
    Close,
    Away,
    Home(Option<(u64, u64)>),
    Grew(u64),
    Gone,
    Kept,
}

impl Entry {
    /// A file that nobody asked for before.
    pub(crate) fn fresh() -> Entry
        ensures { result ≡ fresh }
    {
        Entry {
            state: State::Home,
            usage: 0,
            last: 0,
            marked: false,
        }
    }

    /// The shell that the file holds.
    pub(crate) fn shell(self) -> Option<u32>
        ensures { result ≡ shell_of self.state }
    {
        match self.state {
            State::Opening { shell, .. } => Some(shell),
            State::Live { shell, .. } => Some(shell),
            State::Away { shell, .. } => Some(shell),
            State::Home => None,
            State::Victim => None,
        }
    }

    /// The shell and the instance of an open file, or of one on its way home.
    pub(crate) fn place(self) -> Option<(u32, u64)>
        ensures { result ≡ place_of self.state }
    {
        match self.state {
            State::Live {
                shell,
                instance,
                ..
            } => Some((shell, instance)),
            State::Away { shell, instance } => Some((shell, instance)),
            _ => None,
        }
    }

    /// It is open.
    pub(crate) fn is_live(self) -> bool
        ensures { result ≡ is_some (live_shell self.state) }
    {
        matches!(self.state, State::Live { .. })
    }

    /// A purge may take it.
    pub(crate) fn is_candidate(self) -> bool
        ensures { result ≡ is_candidate self }
    {
        match self.state {
            State::Home => !self.marked && self.usage > 0,
            _ => false,
        }
    }

    /// It is open now, with one descriptor.
    fn opened(self, usage: Option<u64>) -> Option<Entry>
        ensures moved { result ≡ opened usage self }
        ensures shell { IfSome result (HoldsNoOther self) }
    {
        match self.state {
            State::Opening { shell, instance } => Some(Entry {
                state: State::Live {
                    shell,
                    instance,
                    count: 1,
                },
                usage: usage.unwrap_or(self.usage),
                last: self.last,
                marked: self.marked,
            }),
            _ => None,
        }
    }

    /// It isn't opened after all.
    fn abandoned(self) -> Option<Entry>
        ensures moved { result ≡ abandoned self }
        ensures shell { IfSome result (HoldsNoOther self) }
    {
        match self.state {
            State::Opening { .. } => Some(self.with(State::Home)),
            _ => None,
        }
    }

    /// One descriptor less.
    fn closed(self) -> Option<Entry>
        ensures moved { result ≡ closed self }
        ensures shell { IfSome result (HoldsNoOther self) }
    {
        match self.state {
            State::Live {
                shell,
                instance,
                count,
            } => {
                if count > 0 {
                    let count = count - 1;
                    return Some(self.with(State::Live {
                        shell,
                        instance,
                        count,
                    }));
                }
                None
            }
            _ => None,
        }
    }

    /// It has no descriptor any more, and is on its way home.
    fn sent(self) -> Option<Entry>
        ensures moved { result ≡ sent self }
        ensures shell { IfSome result (HoldsNoOther self) }
    {
        match self.state {
            State::Live {
                shell,
                instance,
                count,
            } => {
                if count > 0 {
                    return None;
                }
                Some(self.with(State::Away { shell, instance }))
            }
            _ => None,
        }
    }

    /// It came home, with the usage and the last access that were found on its disk.
    fn homed(self, found: Option<(u64, u64)>) -> Option<Entry>
        ensures moved { result ≡ homed found self }
        ensures shell { IfSome result (HoldsNoOther self) }
    {
        match self.state {
            State::Away { .. } => match found {
                Some((usage, last)) => Some(Entry {
                    state: State::Home,
                    usage,
                    last,
                    marked: self.marked,
                }),
                None => Some(self.with(State::Home)),
            },
            _ => None,
        }
    }

    /// It takes so many bytes more while it is open.
    fn grown(self, bytes: u64) -> Option<Entry>
        ensures moved { result ≡ grown bytes self }
        ensures shell { IfSome result (HoldsNoOther self) }
    {
        match self.state {
            State::Live { .. } => Some(Entry {
                state: self.state,
                usage: self.usage.saturating_add(bytes),
                last: self.last,
                marked: self.marked,
            }),
            _ => None,
        }
    }

    /// What a purge took was removed.
    fn gone(self) -> Option<Entry>
        ensures moved { result ≡ gone self }
        ensures shell { IfSome result (HoldsNoOther self) }
    {
        match self.state {
            State::Victim => Some(Entry {
                state: State::Home,
                usage: 0,
                last: self.last,
                marked: self.marked,
            }),
            _ => None,
        }
    }

    /// What a purge took couldn't be removed.
    fn kept(self) -> Option<Entry>
        ensures moved { result ≡ kept self }
        ensures shell { IfSome result (HoldsNoOther self) }
    {
        match self.state {
            State::Victim => Some(Entry {
                state: State::Home,
                usage: self.usage,
                last: self.last,
                marked: true,
            }),
            _ => None,
        }
    }

    pub(crate) fn with(self, state: State) -> Entry
        ensures { result ≡ with_state state self }
    {
        Entry {
            state,
            usage: self.usage,
            last: self.last,
            marked: self.marked,
        }
    }

    /// What the file is after the call, if it was in a state for it.
    pub(crate) fn moved(self, call: Move) -> Option<Entry>
        ensures moved { result ≡ moved call self }
        ensures shell { IfSome result (HoldsNoOther self) }
    {
        match call {
            Move::Opened(usage) => self.opened(usage),
            Move::Abandon => self.abandoned(),
            Move::Close => self.closed(),
            Move::Away => self.sent(),
            Move::Home(found) => self.homed(found),
            Move::Grew(bytes) => self.grown(bytes),
            Move::Gone => self.gone(),
            Move::Kept => self.kept(),
        }
    }
}
