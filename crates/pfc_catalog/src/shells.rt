// The table of the 256 shells: at which place among the files the one stands that holds a shell.
ghost use Rattle.std.specs.Prelude.{◌≡◌, ◌<◌, ℕ, List, Option, Some, None, IfSome, IfNone, length, slice_get, replicate};
ghost use Rattle.pfc_catalog.specs.Shells.{freed, given};

use std::marker::Model;

/// How many files are open at a time.
pub const SHELLS: u32 = 256;

#[derive(Drop)]
pub(crate) struct Shells {
    places: [Option<usize>; 256],
}

impl Model for Shells {
    ghost use Rattle.std.specs.Prelude.{◌≡◌, ℕ, List, Option, length};

    ghost Value = { List (Option ℕ) };

    ghost view = { λ s. s.places };

    ghost invariant = { λ s. length s.places ≡ 256 };
}

impl Shells {
    pub fn new() -> Shells
        ensures { result ≡ replicate 256 None }
    {
        Shells {
            places: [None; 256],
        }
    }

    /// Where the file stands that holds a shell.
    pub fn at(&self, shell: u32) -> Option<usize>
        requires { shell < 256 }
        ensures { slice_get self.now shell ≡ Some result }
    {
        self.places[shell as usize]
    }

    /// A shell that no file holds.
    pub fn first_free(&self) -> Option<u32>
        ensures free { IfSome result (λ s. (s < 256) × (slice_get self.now s ≡ Some None)) }
        ensures none { IfNone result ((s : ℕ) → s < 256 → (i : ℕ) × (slice_get self.now s ≡ Some (Some i))) }
    {
        for shell in 0..SHELLS {
            if self.places[shell as usize].is_none() {
                return Some(shell);
            }
        }
        None
    }

    /// A shell that was held is free.
    pub fn free(&mut self, shell: Option<u32>)
        requires { IfSome shell (λ s. s < 256) }
        ensures { self.new ≡ freed shell self.old }
    {
        if let Some(shell) = shell {
            self.places[shell as usize] = None;
        }
    }

    /// A shell is held by the file at a place.
    pub fn give(&mut self, shell: Option<u32>, place: usize)
        requires { IfSome shell (λ s. s < 256) }
        ensures { self.new ≡ given shell place self.old }
    {
        if let Some(shell) = shell {
            self.places[shell as usize] = Some(place);
        }
    }
}
