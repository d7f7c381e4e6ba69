// Insertion and removal over nodes that the caller lends. That their keys ascend is asked of the caller, who keeps it as an invariant, as the map does.
ghost use Rattle.std.specs.Prelude.{◌≡◌, ◌≤◌, true, IfErr, vec_len, vec_capacity};
ghost use Rattle.answers.specs.Answer.{if_answered};
ghost use Rattle.std.specs.List.{insert};
ghost use Rattle.ordered.specs.Refusal.{answer, handed_back, room, insertion, Inserted};
ghost use Rattle.ordered.specs.Row.{node_with, put, without, ascending};

use crate::key::Key;
use crate::node::Node;
use crate::refusal::InsertRefusal;
use crate::row::search::search;

/// Puts the node where its key belongs, unless its key is there or `capacity` nodes are; the node is then handed back, and the nodes are as they
/// were. It allocates nothing, since there is memory for `capacity` nodes.
pub fn insert<K: Key, V>(
    nodes: &mut Vec<Node<K, V>>,
    capacity: usize,
    node: Node<K, V>,
) -> Result<(), InsertRefusal<K, V>>
    requires ascending { ascending K.cmp nodes.old.items ≡ true }
    requires inside { vec_len nodes.old ≤ capacity }
    requires reserved { capacity ≤ vec_capacity nodes.old }
    ensures answers { answer result ≡ insertion K.cmp capacity nodes.old.items node.key }
    ensures hands_back { IfErr result (λ refusal. handed_back refusal ≡ node) }
    ensures nodes { nodes.new.items ≡ if_answered (insertion K.cmp capacity nodes.old.items node.key) (put K.cmp node nodes.old.items) nodes.old.items }
    ensures inside { vec_len nodes.new ≤ capacity }
    ensures memory { vec_capacity nodes.new ≡ vec_capacity nodes.old }
    ensures ascending { ascending K.cmp nodes.new.items ≡ true }
    ensures told { Inserted K.cmp capacity node nodes.old.items nodes.new.items result }
{
    match search(nodes.as_slice(), &node.key) {
        Ok(_) => Err(InsertRefusal::KeyIsThere(node)),
        Err(place) => insert_at(nodes, capacity, place, node),
    }
}

/// Puts the node at the place, if there is room.
fn insert_at<K, V>(
    nodes: &mut Vec<Node<K, V>>,
    capacity: usize,
    place: usize,
    node: Node<K, V>,
) -> Result<(), InsertRefusal<K, V>>
    requires within { place ≤ vec_len nodes.old }
    requires inside { vec_len nodes.old ≤ capacity }
    requires reserved { capacity ≤ vec_capacity nodes.old }
    ensures answers { answer result ≡ room capacity (vec_len nodes.old) }
    ensures hands_back { IfErr result (λ refusal. handed_back refusal ≡ node) }
    ensures nodes { nodes.new.items ≡ if_answered (room capacity (vec_len nodes.old)) (insert nodes.old.items place node) nodes.old.items }
    ensures inside { vec_len nodes.new ≤ capacity }
    ensures memory { vec_capacity nodes.new ≡ vec_capacity nodes.old }
{
    if nodes.len() == capacity {
        return Err(InsertRefusal::NoRoom(node));
    }
    match nodes.insert(place, node) {
        Ok(()) => Ok(()),
        Err(_) => unreachable(),
    }
}

/// Takes out the node with the key.
pub fn remove<K: Key, V>(nodes: &mut Vec<Node<K, V>>, key: &K) -> Option<Node<K, V>>
    requires ascending { ascending K.cmp nodes.old.items ≡ true }
    ensures value { result ≡ node_with K.cmp nodes.old.items key.now }
    ensures nodes { nodes.new.items ≡ without K.cmp nodes.old.items key.now }
    ensures fewer { vec_len nodes.new ≤ vec_len nodes.old }
    ensures memory { vec_capacity nodes.new ≡ vec_capacity nodes.old }
    ensures ascending { ascending K.cmp nodes.new.items ≡ true }
{
    match search(nodes.as_slice(), key) {
        Ok(place) => Some(nodes.remove(place)),
        Err(_) => None,
    }
}
