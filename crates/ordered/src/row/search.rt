// The binary search over nodes that the caller lends. It is not the library's `binary_search_by` or `partition_point`, whose steps branch: at 64, 400 and 1,024
// random keys those take 31, 44 and 52 ns, or 37, 56 and 64, for a search by price, and this one 9, 13 and 17; by order 39, 59 and 69, or 33, 47 and 57,
// and this one 28, 35 and 43.
ghost use Rattle.std.specs.Prelude.{◌≡◌, ◌^◌, ◌<◌, ◌≤◌, true, length, MatchResult};
ghost use Rattle.ordered.specs.Row.{ascending, found};
ghost use Rattle.ordered.specs.Place.{Between, At, Gap};

use crate::key::Key;
use crate::node::Node;

// Rows of fewer than 2^11 nodes, as those of a hall with its 1,024 orders, are searched in a number of steps that is known when
// the code is compiled, so that the steps are laid out one after another.
const SHORT_BITS: u32 = 11;

const SHORT: usize = 1 << SHORT_BITS;

// No row has 2^64 nodes.
const WORD_BITS: u32 = 64;

// Where the key stands, or, as an error, where it would go.
pub fn search<K: Key, V>(nodes: &[Node<K, V>], key: &K) -> Result<usize, usize>
    requires ascending { ascending K.cmp nodes.now ≡ true }
    ensures value { result ≡ found K.cmp nodes.now key.now }
    ensures places { MatchResult result (At K.cmp nodes.now key.now) (Gap K.cmp nodes.now key.now) }
{
    let place = place_of(nodes, key);
    if place < nodes.len() && nodes[place].key.cmp(key).is_eq() {
        Ok(place)
    } else {
        Err(place)
    }
}

// How many keys are less.
fn place_of<K: Key, V>(nodes: &[Node<K, V>], key: &K) -> usize
    requires ascending { ascending K.cmp nodes.now ≡ true }
    ensures less { Between K.cmp nodes.now key.now result result }
{
    if nodes.len() < SHORT {
        count_less(nodes, key, SHORT_BITS)
    } else {
        count_less(nodes, key, WORD_BITS)
    }
}

// How many keys are less, in a row of fewer than 2^bits nodes: one step for each bit of the answer.
fn count_less<K: Key, V>(nodes: &[Node<K, V>], key: &K, bits: u32) -> usize
    requires ascending { ascending K.cmp nodes.now ≡ true }
    requires word { bits ≤ 64 }
    requires short { length nodes.now < 2 ^ bits }
    ensures less { Between K.cmp nodes.now key.now result result }
{
    let mut low = 0;
    for bit in (0..bits).rev() {
        let step = 1 << bit;
        if step <= nodes.len() - low {
            let less = nodes[low + step - 1].key.cmp(key).is_lt();
            // a sum in place of a branch, which no processor could foresee
            low += (less as usize) << bit;
        }
    }
    low
}
