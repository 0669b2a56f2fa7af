// Pairs: dual numbers over any kind.
ghost use Rattle.kind.specs.Dual.{Dual, dual_operations, dual_laws, dual};

use crate::kinds::Kind;

// A number and its tangent. Pairs over a kind are a kind again, pairs of pairs too.
#[derive(Clone, Copy, PartialEq, Eq)]
pub struct Pair<K> {
    pub value: K,
    pub tangent: K,
}

impl<K: Kind> Kind for Pair<K> {
    ghost Meaning = { Dual K.Kind.Meaning };

    ghost ops = { dual_operations K.Kind.ops };

    ghost laws = { dual_laws K.Kind.laws };

    ghost means = { dual K.Kind.means };

    fn zero() -> Pair<K> {
        Pair {
            value: K::zero(),
            tangent: K::zero(),
        }
    }

    fn one() -> Pair<K> {
        Pair {
            value: K::one(),
            tangent: K::zero(),
        }
    }

    fn sum(self, other: Pair<K>) -> Pair<K> {
        Pair {
            value: self.value.sum(other.value),
            tangent: self.tangent.sum(other.tangent),
        }
    }

    fn product(self, other: Pair<K>) -> Pair<K> {
        Pair {
            value: self.value.product(other.value),
            tangent: self
                .value
                .product(other.tangent)
                .sum(self.tangent.product(other.value)),
        }
    }

    fn opposite(self) -> Pair<K> {
        Pair {
            value: self.value.opposite(),
            tangent: self.tangent.opposite(),
        }
    }

    fn image(n: i64) -> Pair<K> {
        Pair {
            value: K::image(n),
            tangent: K::zero(),
        }
    }
}
