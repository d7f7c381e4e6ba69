// A key with its value.
#[derive(PartialEq, Eq, Debug, Drop)]
pub struct Node<K, V> {
    pub key: K,
    pub value: V,
}
