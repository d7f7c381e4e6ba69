// The map beside a plain table of 256 keys, on thousands of random steps, with both kinds of keys.
use ordered::{InsertRefusal, Key, Node, OrderId, OrderedMap, Price};
use std::alloc::Global;
use std::fmt::Debug;
use std::process::Abort;
use std::test::Fail;

const STEPS: u32 = 20_000;

// fewer than there are keys, so that there is often no room
const CAPACITY: usize = 100;

// The value under each key.
#[derive(Drop)]
struct Table {
    values: [Option<u32>; 256],
}

impl Table {
    fn new() -> Table {
        Table {
            values: [None; 256],
        }
    }

    fn len(&self) -> usize {
        self.values.iter().flatten().count()
    }

    fn insert<K: Drop>(
        &mut self,
        key: u8,
        node: Node<K, u32>,
    ) -> Result<(), InsertRefusal<K, u32>> {
        if self.values[key as usize].is_some() {
            return Err(InsertRefusal::KeyIsThere(node));
        }
        if self.len() >= CAPACITY {
            return Err(InsertRefusal::NoRoom(node));
        }
        self.values[key as usize] = Some(node.value);
        Ok(())
    }

    // Where the key stands among the keys, or, as an error, where it would go.
    fn search(&self, key: u8) -> Result<usize, usize> {
        let place = self.values[0..key as usize].iter().flatten().count();
        match self.values[key as usize] {
            Some(_) => Ok(place),
            None => Err(place),
        }
    }

    fn first(&self) -> Option<u32> {
        self.values.iter().flatten().copied().next()
    }

    fn last(&self) -> Option<u32> {
        self.values.iter().rev().flatten().copied().next()
    }
}

fn next(seed: u32) -> u32 {
    seed.wrapping_mul(1_664_525).wrapping_add(1_013_904_223)
}

fn key_of(seed: u32) -> u8 {
    ((seed >> 24) & 0xff) as u8
}

fn agree<K: Key>(rt: &impl Abort, map: &OrderedMap<K, u32>, table: &Table, number: u8, key: &K) {
    assert_eq!(rt; map.len(), table.len());
    assert_eq!(rt; map.capacity(), CAPACITY);
    assert_eq!(rt; map.get(key).copied(), table.values[number as usize]);
    assert_eq!(rt; map.search(key), table.search(number));
    assert_eq!(rt; map.first().map(|node| node.value), table.first());
    assert_eq!(rt; map.last().map(|node| node.value), table.last());
}

// A node goes in, or the one with the key comes out.
fn change<K: Key + Copy + Debug + Drop>(
    rt: &impl Abort,
    map: &mut OrderedMap<K, u32>,
    table: &mut Table,
    seed: u32,
    key: K,
) {
    let number = key_of(seed);
    if seed & 0x10000 == 0 {
        let value = seed | 1;
        assert_eq!(rt;
            map.insert(Node { key, value }),
            table.insert(number, Node { key, value })
        );
    } else {
        assert_eq!(rt;
            map.remove(&key).map(|node| node.value),
            table.values[number as usize].take()
        );
    }
}

fn as_in_a_table<K: Key + Copy + Debug + Drop, F: Fn(u8) -> K>(
    rt: &impl Abort,
    heap: Global,
    made: F,
) -> Result<(), Fail>
    requires { F.IsAlwaysCallable made }
{
    let mut map = OrderedMap::new(heap, CAPACITY)?;
    let mut table = Table::new();
    let mut seed = 1;
    for _ in 0..STEPS {
        seed = next(seed);
        change(rt, &mut map, &mut table, seed, made(key_of(seed)));
        let number = key_of(next(seed));
        agree(rt, &map, &table, number, &made(number));
    }
    assert!(rt; table.len() > 0);
    Ok(())
}

#[test]
fn prices_as_in_a_table(rt: HostRuntime) -> Result<(), Fail> {
    as_in_a_table(&rt, rt.alloc(), |number| Price(number as u32))
}

// Sixteen members of sixteen orders each; the numbers are far apart.
fn order_id(number: u8) -> OrderId {
    OrderId {
        member: (number / 16) as u32 * 100_000_000,
        order: (number % 16) as u32 * 200_000_000,
    }
}

#[test]
fn orders_as_in_a_table(rt: HostRuntime) -> Result<(), Fail> {
    as_in_a_table(&rt, rt.alloc(), order_id)
}

#[test]
fn refusals_have_numbers(rt: HostRuntime) {
    let key = Price(1);
    let there = InsertRefusal::KeyIsThere(Node { key, value: 1 });
    let full = InsertRefusal::NoRoom(Node { key, value: 1 });
    assert_eq!(rt; there.number(), 94);
    assert_eq!(rt; full.number(), 95);
}

#[test]
fn values_change_where_they_lie(rt: HostRuntime) -> Result<(), Fail> {
    let mut map = OrderedMap::new(rt.alloc(), 3)?;
    for number in [5, 2, 8] {
        let _ = map.insert(Node {
            key: Price(number),
            value: number,
        });
    }
    if let Some(value) = map.get_mut(&Price(5)) {
        *value = 50;
    }
    if let Some(value) = map.first_mut() {
        *value = 20;
    }
    assert!(rt; map.get_mut(&Price(4)).is_none());
    let made = |key: u32, value: u32| Node {
        key: Price(key),
        value,
    };
    assert_eq!(rt;
        map.nodes(),
        [made(2, 20), made(5, 50), made(8, 8)].as_slice()
    );
    assert_eq!(rt; map.pop_first(), Some(made(2, 20)));
    assert_eq!(rt; map.pop_last(), Some(made(8, 8)));
    assert_eq!(rt; map.nodes(), [made(5, 50)].as_slice());
    Ok(())
}
