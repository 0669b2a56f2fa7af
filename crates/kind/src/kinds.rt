// What a number kind is.
ghost use Rattle.std.specs.Prelude.{◌≡◌};
ghost use Rattle.kind.specs.Kinds.{Operations, Laws};

// A type of numbers whose operations never refuse. Two numbers are equal where their meanings are: a kind may have
// several spellings of one number, and answer with any of them. So no `==` belongs to a kind; that of a type below compares
// numbers as they are held.
pub trait Kind: Copy {
    ghost Meaning: { Type 0 };

    ghost ops: { Operations Meaning };

    // The laws are a member, so that an implementation without their proof is refused.
    ghost laws: { Laws ops };

    ghost means: { Self → Meaning };

    fn zero() -> Self
        ensures { means result ≡ ops.zero };

    fn one() -> Self
        ensures { means result ≡ ops.one };

    fn sum(self, other: Self) -> Self
        ensures { means result ≡ ops.plus (means self) (means other) };

    fn product(self, other: Self) -> Self
        ensures { means result ≡ ops.times (means self) (means other) };

    fn opposite(self) -> Self
        ensures { means result ≡ ops.opposite (means self) };

    // The image of a whole number.
    fn image(n: i64) -> Self
        ensures { means result ≡ ops.image n };
}
