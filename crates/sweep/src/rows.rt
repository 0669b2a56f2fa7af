// Entries of rows, by what they mean.
ghost use Rattle.std.specs.Prelude.{◌≡◌, ◌<◌, map, length};
ghost use Rattle.tape.specs.Rows.{at};

use kind::Kind;

// The number of a register that the row has, so that nothing is tested.
pub(crate) fn entry<K: Kind>(row: &[K], register: usize) -> K
    requires { register < length row.now }
    ensures { K.Kind.means result ≡ at K.Kind.ops (map K.Kind.means row.now) register }
{
    row[register]
}
