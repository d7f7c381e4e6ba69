ghost use Rattle.std.specs.Prelude.{◌≡◌, ◌-◌, ◌<◌, [], length, take, drop, Some, IfOk, IfErr, MatchResult};
ghost use Rattle.answers.specs.Answer.{if_answered};
ghost use Rattle.std.specs.Borrow.{sem};
ghost use Rattle.std.specs.List.{slice_get};
ghost use Rattle.std.specs.Option.{option_map, option_copied_mut};
ghost use Rattle.ordered.specs.Kept.{Sound};
ghost use Rattle.ordered.specs.Place.{At, Gap};
ghost use Rattle.ordered.specs.Refusal.{answer, handed_back, insertion, Inserted};
ghost use Rattle.ordered.specs.Row.{node_with, lookup, found, put, without, first as first_of, last as last_of};

use crate::key::Key;
use crate::node::Node;
use crate::refusal::InsertRefusal;
use crate::row::changes;
use crate::row::search::search;
use std::alloc::{AllocError, Global};
use std::marker::Model;

// A map in memory that is reserved once: std's `BTreeMap` allocates as it grows. None can exist whose keys do not ascend.
#[derive(Drop)]
pub struct OrderedMap<K: Key, V> {
    nodes: Vec<Node<K, V>>,
    // how many nodes the map takes; there may be memory for more than was asked for
    capacity: usize,
}

impl<K: Key, V> Model for OrderedMap<K, V> {
    ghost use Rattle.std.specs.Prelude.{◌≤◌, vec_capacity};
    ghost use Rattle.ordered.specs.Kept.{Kept, Sound};

    ghost Value = { Kept K V };

    ghost view = { λ m. record { nodes = m.nodes.items; capacity = m.capacity } };

    ghost invariant = { λ m. Sound K.cmp (record { nodes = m.nodes.items; capacity = m.capacity }) × (m.capacity ≤ vec_capacity m.nodes) };
}

impl<K: Key, V> OrderedMap<K, V> {
    ghost use Rattle.ordered.specs.Lent.{lends_at, lends_under, lends_first};

    // A map of none, with memory for `capacity` nodes. Nothing allocates after this.
    #[tactic(auto, using(crate::proofs::Ascends::ascending_none))]
    pub fn new(heap: Global, capacity: usize) -> Result<OrderedMap<K, V>, AllocError>
        ensures made { IfOk result (λ map. (map.nodes ≡ []) × (map.capacity ≡ capacity)) }
        ensures sound { IfOk result (λ map. Sound K.cmp map) }
    {
        let nodes = Vec::with_capacity(heap, capacity)?;
        Ok(OrderedMap { nodes, capacity })
    }

    // How many nodes the map holds.
    pub fn len(&self) -> usize
        ensures value { result ≡ length self.now.nodes }
        ensures sound { Sound K.cmp self.now }
    {
        self.nodes.len()
    }

    // How many it has memory for.
    pub fn capacity(&self) -> usize
        ensures value { result ≡ self.now.capacity }
        ensures sound { Sound K.cmp self.now }
    {
        self.capacity
    }

    // Where the key stands among the keys, or, as an error, where it would go.
    pub fn search(&self, key: &K) -> Result<usize, usize>
        ensures value { result ≡ found K.cmp self.now.nodes key.now }
        ensures places { MatchResult result (At K.cmp self.now.nodes key.now) (Gap K.cmp self.now.nodes key.now) }
        ensures sound { Sound K.cmp self.now }
    {
        search(self.nodes.as_slice(), key)
    }

    // The value under the key.
    pub fn get(&self, key: &K) -> Option<&V>
        ensures value { option_map (λ x. x.now) result ≡ lookup K.cmp self.now.nodes key.now }
        ensures sound { Sound K.cmp self.now }
    {
        match search(self.nodes.as_slice(), key) {
            Ok(place) => Some(&self.nodes[place].value),
            Err(_) => None,
        }
    }

    // Puts the node in, unless its key is there or there is no room; the node is then handed back, and the map is as it was.
    pub fn insert(&mut self, node: Node<K, V>) -> Result<(), InsertRefusal<K, V>>
        ensures answers { answer result ≡ insertion K.cmp self.old.capacity self.old.nodes node.key }
        ensures hands_back { IfErr result (λ refusal. handed_back refusal ≡ node) }
        ensures nodes { self.new.nodes ≡ if_answered (insertion K.cmp self.old.capacity self.old.nodes node.key) (put K.cmp node self.old.nodes) self.old.nodes }
        ensures capacity { self.new.capacity ≡ self.old.capacity }
        ensures was_sound { Sound K.cmp self.old }
        ensures sound { Sound K.cmp self.new }
        ensures told { Inserted K.cmp self.old.capacity node self.old.nodes self.new.nodes result }
    {
        changes::insert(&mut self.nodes, self.capacity, node)
    }

    // Takes out the node with the key.
    pub fn remove(&mut self, key: &K) -> Option<Node<K, V>>
        ensures value { result ≡ node_with K.cmp self.old.nodes key.now }
        ensures nodes { self.new.nodes ≡ without K.cmp self.old.nodes key.now }
        ensures capacity { self.new.capacity ≡ self.old.capacity }
        ensures was_sound { Sound K.cmp self.old }
        ensures sound { Sound K.cmp self.new }
    {
        changes::remove(&mut self.nodes, key)
    }

    // The value at a place, to be changed where it lies.
    fn value_at(&mut self, place: usize) -> &mut V
        requires within { place < length self.old.nodes }
        ensures* writes_back { sem 𝓛 (lends_at K.row V.row K.Ord self.entry place result) }
        ensures value { option_map (λ n. n.value) (slice_get self.old.nodes place) ≡ Some result.now }
    {
        let node = &mut self.nodes[place];
        &mut node.value
    }

    // The value under the key, to be changed where it lies.
    pub fn get_mut(&mut self, key: &K) -> Option<&mut V>
        ensures* writes_back { sem 𝓛 (lends_under K.row V.row K.Ord self.entry key.now result) }
        ensures value { option_copied_mut result ≡ lookup K.cmp self.old.nodes key.now }
        ensures sound { Sound K.cmp self.old }
    {
        match self.search(key) {
            Ok(place) => Some(self.value_at(place)),
            Err(_) => None,
        }
    }

    // The value under the least key, to be changed where it lies.
    pub fn first_mut(&mut self) -> Option<&mut V>
        ensures* writes_back { sem 𝓛 (lends_first K.row V.row K.Ord self.entry result) }
        ensures value { option_copied_mut result ≡ option_map (λ n. n.value) (first_of self.old.nodes) }
        ensures sound { Sound K.cmp self.old }
    {
        if self.nodes.is_empty() {
            None
        } else {
            Some(self.value_at(0))
        }
    }

    // The nodes in the order of their keys.
    pub fn nodes(&self) -> &[Node<K, V>]
        ensures value { result.now ≡ self.now.nodes }
        ensures sound { Sound K.cmp self.now }
    {
        &self.nodes
    }

    // Takes out the node with the least key.
    #[tactic(auto, using(crate::proofs::Ends::ascending_drop))]
    pub fn pop_first(&mut self) -> Option<Node<K, V>>
        ensures value { result ≡ first_of self.old.nodes }
        ensures nodes { self.new.nodes ≡ drop 1 self.old.nodes }
        ensures capacity { self.new.capacity ≡ self.old.capacity }
        ensures was_sound { Sound K.cmp self.old }
        ensures sound { Sound K.cmp self.new }
    {
        if self.nodes.is_empty() {
            None
        } else {
            Some(self.nodes.remove(0))
        }
    }

    // Takes out the node with the greatest key.
    #[tactic(auto, using(crate::proofs::Ends::ascending_take))]
    pub fn pop_last(&mut self) -> Option<Node<K, V>>
        ensures value { result ≡ last_of self.old.nodes }
        ensures nodes { self.new.nodes ≡ take (length self.old.nodes - 1) self.old.nodes }
        ensures capacity { self.new.capacity ≡ self.old.capacity }
        ensures was_sound { Sound K.cmp self.old }
        ensures sound { Sound K.cmp self.new }
    {
        self.nodes.pop()
    }

    // The node with the least key.
    pub fn first(&self) -> Option<&Node<K, V>>
        ensures value { option_map (λ x. x.now) result ≡ first_of self.now.nodes }
        ensures sound { Sound K.cmp self.now }
    {
        self.nodes.first()
    }

    // The node with the greatest key.
    pub fn last(&self) -> Option<&Node<K, V>>
        ensures value { option_map (λ x. x.now) result ≡ last_of self.now.nodes }
        ensures sound { Sound K.cmp self.now }
    {
        self.nodes.last()
    }
}

impl<K: Key + Drop, V: Drop> OrderedMap<K, V> {
    // Takes every node out.
    #[tactic(auto, using(crate::proofs::Ascends::ascending_none))]
    pub fn clear(&mut self)
        ensures nodes { self.new.nodes ≡ [] }
        ensures capacity { self.new.capacity ≡ self.old.capacity }
        ensures was_sound { Sound K.cmp self.old }
        ensures sound { Sound K.cmp self.new }
    {
        self.nodes.clear();
    }
}
