ghost use Rattle.std.specs.Prelude.{◌≡◌, ◌<◌, List, Option, Some, None, option_map, replicate, slice_set, slice_index_or, true, false, IfOk, MatchResult, MatchOption, vec_len, length};
ghost use Rattle.pfc_client.specs.Session.{place_at, is_free};

use pfc_base::Memory;
use std::alloc::Global;
use std::marker::Model;

/// How many descriptors a client has, 0 to 15.
pub const DESCRIPTORS: usize = 16;

/// What a client has open: a value, or none, at each of its descriptors.
#[derive(Drop)]
pub struct Session<T: Drop> {
    places: Vec<Option<T>>,
}

impl<T: Drop> Model for Session<T> {
    ghost use Rattle.std.specs.Prelude.{◌≡◌, List, Option, length};

    ghost Value = { List (Option T) };

    ghost view = { λ s. s.places.items };

    ghost invariant = { λ s. length s.places.items ≡ 16 };
}

impl<T: Drop> Session<T> {
    /// Nothing is open. The room of all descriptors is taken at once, so that no later call takes memory.
    pub fn new(alloc: Global) -> Result<Session<T>, Memory>
        ensures { IfOk result (λ s. s ≡ replicate 16 None) }
    {
        let mut places = Vec::with_capacity(alloc, DESCRIPTORS)?;
        for _place in 0..DESCRIPTORS {
            places.push_reserved(None);
        }
        Ok(Session { places })
    }

    /// Whether the number is a descriptor's and nothing is open there.
    pub fn is_free(&self, number: u64) -> bool
        ensures { result ≡ is_free self.now number }
    {
        number < 16 && self.places[number as usize].is_none()
    }

    /// Opens the value at a descriptor, or hands it back where the number is above 15 or in use.
    pub fn put(&mut self, number: u64, value: T) -> Result<(), T>
        ensures put { MatchResult result (λ _. (is_free self.old number ≡ true) × (self.new ≡ slice_set self.old number (Some value))) (λ back. (is_free self.old number ≡ false) × (back ≡ value) × (self.new ≡ self.old)) }
    {
        if !self.is_free(number) {
            return Err(value);
        }
        self.places[number as usize] = Some(value);
        Ok(())
    }

    /// What is open at the descriptor.
    pub fn get(&self, number: u64) -> Option<&T>
        ensures { option_map (λ t. t.now) result ≡ place_at self.now number }
    {
        if number >= self.places.len() as u64 {
            return None;
        }
        self.places[number as usize].as_ref()
    }

    /// Takes out what is open at the descriptor, which is free then.
    pub fn take(&mut self, number: u64) -> Option<T>
        ensures taken { result ≡ place_at self.old number }
        ensures free { self.new ≡ slice_set self.old number None }
    {
        if number >= self.places.len() as u64 {
            return None;
        }
        self.places[number as usize].take()
    }

    /// Hands out what the type keeps: there are sixteen descriptors.
    pub fn sixteen(&self)
        ensures { length self.now ≡ 16 }
    {
        let _places = self.places.len();
    }
}
