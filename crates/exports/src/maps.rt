// Workloads of the ordered map: a map cannot pass to C, so each makes its own, and answers a sum that the same work in another
// language can be held to. Where there is no memory the answer is 0. A price has a value of four bytes, as the number of a queue, and
// an order one of eight.
use allocation::MOST_ORDERS;
use ordered::{Key, Node, OrderId, OrderedMap, Price};
use std::alloc::Global;

// Keys that stand among the first 64 members, so that members repeat.
fn order_id(key: u32) -> OrderId {
    OrderId {
        member: key % 64,
        order: key,
    }
}

fn put_in<K: Key + Drop, V: From<u32> + Drop>(map: &mut OrderedMap<K, V>, key: K, number: u32) {
    let _ = map.insert(Node {
        key,
        value: V::from(number),
    });
}

// A map of these keys; none where there is no memory.
fn filled<K: Key + Drop, V: From<u32> + Into<u64> + Copy + Drop, F: Fn(u32) -> K>(
    heap: Global,
    keys: &[u32],
    key_of: &F,
) -> Option<OrderedMap<K, V>>
    requires { F.IsAlwaysCallable key_of.now }
{
    let mut map = OrderedMap::new(heap, MOST_ORDERS).ok()?;
    for key in keys {
        put_in(&mut map, key_of(*key), *key);
    }
    Some(map)
}

// The sum of the values that stand under the keys.
fn looked_up<K: Key + Drop, V: From<u32> + Into<u64> + Copy + Drop, F: Fn(u32) -> K>(
    heap: Global,
    keys: &[u32],
    sought: &[u32],
    key_of: F,
) -> Option<u64>
    requires { F.IsAlwaysCallable key_of }
{
    let map: OrderedMap<K, V> = filled(heap, keys, &key_of)?;
    let mut sum: u64 = 0;
    for key in sought {
        if let Some(value) = map.get(&key_of(*key)) {
            sum = sum.wrapping_add((*value).into());
        }
    }
    Some(sum)
}

// Each old key comes out, and the new one beside it goes in: the sum of the values that came out.
fn changed<K: Key + Drop, V: From<u32> + Into<u64> + Copy + Drop, F: Fn(u32) -> K>(
    heap: Global,
    keys: &[u32],
    old: &[u32],
    new: &[u32],
    key_of: F,
) -> Option<u64>
    requires { F.IsAlwaysCallable key_of }
{
    let mut map: OrderedMap<K, V> = filled(heap, keys, &key_of)?;
    let mut sum: u64 = 0;
    for (out, into) in old.iter().zip(new) {
        if let Some(node) = map.remove(&key_of(*out)) {
            sum = sum.wrapping_add(node.value.into());
        }
        put_in(&mut map, key_of(*into), *into);
    }
    Some(sum)
}

#[unsafe(no_mangle)]
pub extern "C" fn lezdamir_prices_looked_up(heap: Global, keys: &[u32], sought: &[u32]) -> u64 {
    looked_up::<Price, u32, _>(heap, keys, sought, |key| Price(key)).unwrap_or(0)
}

#[unsafe(no_mangle)]
pub extern "C" fn lezdamir_orders_looked_up(heap: Global, keys: &[u32], sought: &[u32]) -> u64 {
    looked_up::<OrderId, u64, _>(heap, keys, sought, order_id).unwrap_or(0)
}

#[unsafe(no_mangle)]
pub extern "C" fn lezdamir_prices_changed(
    heap: Global,
    keys: &[u32],
    old: &[u32],
    new: &[u32],
) -> u64 {
    changed::<Price, u32, _>(heap, keys, old, new, |key| Price(key)).unwrap_or(0)
}

#[unsafe(no_mangle)]
pub extern "C" fn lezdamir_orders_changed(
    heap: Global,
    keys: &[u32],
    old: &[u32],
    new: &[u32],
) -> u64 {
    changed::<OrderId, u64, _>(heap, keys, old, new, order_id).unwrap_or(0)
}
