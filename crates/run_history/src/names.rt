//! The names of rows that a history has, each once where that is cheap.
ghost use Rattle.std.specs.Prelude.{◌≡◌, ◌<◌, [], IfOk, IfSome, length};
ghost use Rattle.run_history.specs.Naming.{IsNumbered, Keeps, name_at};

use mw_types::{NoMemory, RowName, Seq};
use std::alloc::Global;
use std::marker::Model;

/// A list of short names. A name that is there is mostly found, and else stands there once more.
#[derive(Drop)]
pub(crate) struct Names {
    held: Seq<RowName>,
    // The number of the last name of each place: a guess, which is compared. There are as many places
    // as names or more, and each name has one.
    guesses: Vec<u32>,
}

impl Model for Names {
    ghost use Rattle.std.specs.Prelude.{All, List};
    ghost use Rattle.mw_types.specs.declared.identity.RowName.{RowName};
    ghost use Rattle.run_history.specs.Naming.{IsShort};

    ghost Value = { List RowName };

    ghost view = { λ names. names.held };

    ghost invariant = { λ names. All IsShort names.held };
}

// How many places there are at first.
const PLACES: usize = 64;

impl Names {
    // No name, which takes no memory.
    pub(crate) fn new(alloc: Global) -> Names
        ensures empty { result ≡ [] }
    {
        Names {
            held: Seq::new(alloc),
            guesses: Vec::new(alloc),
        }
    }

    // The number under which an equal name is held, from now on where it was not. None where the name
    // is long, or where no number is left.
    pub(crate) fn number(&mut self, name: &RowName) -> Result<Option<u32>, NoMemory>
        ensures kept { Keeps self.old self.new }
        ensures held { IfOk result (λ found.
            IfSome found (λ number. IsNumbered self.new number name.now)) }
    {
        let hash = hash_of(name);
        match self.guess(hash, name) {
            Some(number) => Ok(Some(number)),
            None => self.add(hash, name),
        }
    }

    // The number that stands at the place of a name, where the name under it is this one.
    fn guess(&self, hash: u32, name: &RowName) -> Option<u32>
        ensures { IfSome result (λ number. IsNumbered self.now number name.now) }
    {
        let number = *self.guesses.get(place(&self.guesses, hash))?;
        if (number as usize) < self.held.len() && self.get(number) == name {
            return Some(number);
        }
        None
    }

    // Adds a name, and notes its number at its place.
    #[inline(never)]
    fn add(&mut self, hash: u32, name: &RowName) -> Result<Option<u32>, NoMemory>
        ensures kept { Keeps self.old self.new }
        ensures held { IfOk result (λ found.
            IfSome found (λ number. IsNumbered self.new number name.now)) }
    {
        let Ok(number) = u32::try_from(self.held.len()) else {
            return Ok(None);
        };
        let Some(copy) = name.short_copy() else {
            return Ok(None);
        };
        if self.held.len() == self.guesses.len() {
            spread(&mut self.guesses, self.held.as_slice())?;
        }
        self.held.push(copy)?;
        note(&mut self.guesses, hash, number);
        Ok(Some(number))
    }

    // The name under a number.
    pub(crate) fn get(&self, number: u32) -> &RowName
        requires { number < length self.now }
        ensures { result.now ≡ name_at self.now number }
    {
        &self.held.as_slice()[number as usize]
    }

    // The name under a number, once more.
    pub(crate) fn again(&self, number: u32) -> RowName
        requires { number < length self.now }
        ensures { result ≡ name_at self.now number }
    {
        self.held.as_slice()[number as usize].short_copy().unwrap()
    }
}

// A number of a name, which is mostly not that of another one.
fn hash_of(name: &RowName) -> u32 {
    let mut hash = name.part.wrapping_add(2166136261);
    for byte in name.key.text().as_bytes() {
        hash = (hash ^ u32::from(*byte)).wrapping_mul(16777619);
    }
    hash
}

// Where the number of a name is looked for. The places are a power of two, or none.
fn place(guesses: &Vec<u32>, hash: u32) -> usize {
    hash as usize & guesses.len().wrapping_sub(1)
}

// Puts a number at a place.
fn note(guesses: &mut Vec<u32>, hash: u32, number: u32) {
    let place = place(guesses, hash);
    if let Some(guess) = guesses.get_mut(place) {
        *guess = number;
    }
}

// Doubles the places.
fn spread(guesses: &mut Vec<u32>, names: &[RowName]) -> Result<(), NoMemory> {
    guesses.resize(names.len().wrapping_mul(2).max(PLACES), 0)?;
    for (number, name) in names.iter().enumerate() {
        if let Ok(number) = u32::try_from(number) {
            note(guesses, hash_of(name), number);
        }
    }
    Ok(())
}
