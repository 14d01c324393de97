//! Messages in a vector of places, with a table from their numbers to their places.

ghost use Rattle.std.specs.Prelude.{◌≡◌, ◌↔◌, ◌++◌, [], ◌∷◌, IfOk, IsTrue, OnOk, OnErr, All, AllPairs, length, map, max, find, filter, not, ◌<◌, slice_set, vec_len};
ghost use Rattle.msg_flight.specs.Messages.{HasNumberBelow, IsInFlight, Precedes, first_number, follows, has_number};
ghost use Rattle.msg_flight.specs.Places.{numbers_of};

use mr_base::{ListOf, Memory, Message, MsgId};
use std::alloc::Global;
use std::collections::BTreeMap;
use std::marker::Model;
use std::ops::Bound::{Excluded, Unbounded};

/// The messages in flight in the order of their numbers, which is the order in which they were sent. A place
/// that a message left is used again.
#[derive(Drop)]
pub struct Flight {
    places: Vec<Option<Message>>,
    free: Vec<usize>,
    table: BTreeMap<u64, usize>,
}

impl Model for Flight {
    ghost use Rattle.std.specs.Prelude.{length, vec_capacity};
    ghost use Rattle.msg_flight.specs.Value.{FlightValue};

    ghost Value = { FlightValue };

    ghost use Rattle.msg_flight.specs.Places.{IsSound, messages_of};

    ghost view = { λ f. record {
      messages = messages_of f.places.items f.table.entries;
      places = length f.places.items;
    } };

    ghost invariant = { λ f. IsSound f.places.items f.free.items (vec_capacity f.free) f.table.entries };
}

impl Flight {
    /// No message is in flight.
    pub fn new(alloc: Global) -> Flight
        ensures { result ≡ record { messages = []; places = 0 } }
    {
        Flight {
            places: Vec::new(alloc),
            free: Vec::new(alloc),
            table: BTreeMap::new(alloc),
        }
    }

    /// Adds a message behind all others. After want of memory nothing has changed.
    pub fn send(&mut self, m: Message) -> Result<(), Memory>
        requires above { All (HasNumberBelow m.id) self.old.messages }
        ensures sent { OnOk result (self.new.messages ≡ self.old.messages ++ m ∷ []) }
        ensures places { OnOk result (self.new.places ≡ max self.old.places (length self.new.messages)) }
        ensures err { OnErr result (self.new ≡ self.old) }
    {
        let number = m.id.0;
        match self.free.pop() {
            None => {
                self.places.reserve(1)?;
                self.free.reserve(self.places.len() + 1)?;
                self.table.insert(number, self.places.len())?;
                self.places.push_reserved(Some(m));
            }
            Some(place) => {
                match self.table.insert(number, place) {
                    Ok(_) => put_at(&mut self.places, place, m),
                    Err(_) => {
                        self.free.push_reserved(place);
                        return Err(Memory);
                    }
                }
            }
        }
        Ok(())
    }

    /// The number of the first message, if there is one.
    pub fn head(&self) -> Option<MsgId>
        ensures { result ≡ first_number self.now.messages }
    {
        match self.table.first_key_value() {
            Some((number, _)) => Some(MsgId(*number)),
            None => None,
        }
    }

    /// The number of the first message above this one, which is in flight.
    pub fn after(&self, m: MsgId) -> Option<MsgId>
        requires { IsInFlight m self.now.messages }
        ensures { result ≡ first_number (filter (follows m) self.now.messages) }
    {
        match self.table.range((Excluded(&m.0), Unbounded)).next() {
            Some((number, _)) => Some(MsgId(*number)),
            None => None,
        }
    }

    /// The numbers of the messages, in their order.
    pub fn numbers(&self, alloc: Global) -> Result<ListOf<MsgId>, Memory>
        ensures { IfOk result (λ numbers. numbers ≡ map (λ m. m.id) self.now.messages) }
    {
        numbers_in(alloc, &self.table)
    }

    /// How many messages are in flight.
    pub fn len(&self) -> u64
        ensures count { result ≡ length self.now.messages }
        ensures in_order { AllPairs Precedes self.now.messages }
    {
        self.table.len() as u64
    }

    /// Whether the message is in flight.
    pub fn has(&self, m: MsgId) -> bool
        ensures { IsTrue result ↔ IsInFlight m self.now.messages }
    {
        self.table.contains_key(&m.0)
    }

    /// Takes the message out, if it is in flight.
    pub fn take(&mut self, m: MsgId) -> Option<Message>
        ensures taken { result ≡ find (has_number m) self.old.messages }
        ensures others { self.new.messages ≡ filter (λ x. not (has_number m x)) self.old.messages }
        ensures places { self.new.places ≡ self.old.places }
    {
        match self.table.remove(&m.0) {
            None => None,
            Some(place) => {
                self.free.push_reserved(place);
                self.places[place].take()
            }
        }
    }

    /// How many places for messages there are, free ones among them.
    pub fn places(&self) -> u64
        ensures { result ≡ self.now.places }
    {
        self.places.len() as u64
    }
}

/// Puts the message at a place.
fn put_at(places: &mut Vec<Option<Message>>, place: usize, m: Message)
    requires { place < vec_len places.old }
    ensures { places.new.items ≡ slice_set places.old.items place (Some m) }
{
    places[place] = Some(m);
}

/// The numbers of a table.
fn numbers_in(alloc: Global, table: &BTreeMap<u64, usize>) -> Result<ListOf<MsgId>, Memory>
    ensures { IfOk result (λ numbers. numbers ≡ numbers_of table.now.entries) }
{
    let mut numbers = ListOf::new(alloc);
    for (number, _) in table {
        numbers.push(MsgId(*number))?;
    }
    Ok(numbers)
}
