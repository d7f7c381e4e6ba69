ghost use Rattle.std.specs.Prelude.{◌≡◌};
ghost use Rattle.ordered.specs.Refusal.{number_of};

use crate::node::Node;

// Why a node was not put in. It is handed back, and the map is as it was.
#[derive(PartialEq, Eq, Debug, Drop)]
pub enum InsertRefusal<K, V> {
    // a node with this key stands there
    KeyIsThere(Node<K, V>),
    // the map holds as many nodes as it has memory for
    NoRoom(Node<K, V>),
}

impl<K, V> InsertRefusal<K, V> {
    // The number by which reports name it.
    pub fn number(&self) -> u32
        ensures value { result ≡ number_of self.now }
    {
        // by cases, since they hold nodes: discriminants are for cases that hold nothing
        match self {
            InsertRefusal::KeyIsThere(_) => 94,
            InsertRefusal::NoRoom(_) => 95,
        }
    }
}
