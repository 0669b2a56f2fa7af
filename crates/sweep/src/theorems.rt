// How the answers fit together.
ghost use Rattle.std.specs.Prelude.{List};
ghost use Rattle.tape.specs.Tapes.{Tape};
ghost use Rattle.sweep.specs.Theorems.{ReverseIsForward, BendsTurn};

use kind::Kind;

// In every kind, for every tape and controls, a gradient times a direction is the slope along it, and of two bends each, times
// the other's direction, is the same.
pub fn reverse_is_forward<K: Kind>()
    ensures slopes { (t : Tape) (controls : List K) → ReverseIsForward K.Kind.ops K.Kind.means t controls }
    ensures bends { (t : Tape) (controls : List K) → BendsTurn K.Kind.ops K.Kind.means t controls }
{}
