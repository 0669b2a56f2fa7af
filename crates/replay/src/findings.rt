// What a query finds.

#[derive(Drop, PartialEq, Eq)]
pub enum Finding<K> {
    Value(K),
    // the value, the gradient with an entry for each control, and the backward operations
    Gradient(K, Vec<K>, usize),
    Slope(K),
    // an entry for each control
    Bend(Vec<K>),
}
