// Rows of numbers.
ghost use Rattle.std.specs.Prelude.{◌≡◌, map};
ghost use Rattle.kind.specs.Rows.{dot_product};

use crate::kinds::Kind;

// The sum of the products of two rows, entry by entry, as far as both go.
pub fn dot<K: Kind>(xs: &[K], ys: &[K]) -> K
    ensures { K.Kind.means result ≡ dot_product K.Kind.ops (map K.Kind.means xs.now) (map K.Kind.means ys.now) }
{
    let mut sum = K::zero();
    for (x, y) in xs.iter().zip(ys) {
        sum = sum.sum(x.product(*y));
    }
    sum
}
