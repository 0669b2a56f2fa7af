use super::*;

// i64::MIN is its own opposite, and twice it is 0.
#[test]
fn ticks_at_the_edge(rt: HostRuntime) {
    let least = Ticks(i64::MIN);
    assert_eq!(rt; least.opposite().0, i64::MIN);
    assert_eq!(rt; least.product(Ticks(-1)).0, i64::MIN);
    assert_eq!(rt; least.sum(least).0, 0);
    assert_eq!(rt; Ticks(i64::MAX).sum(Ticks::one()).0, i64::MIN);
    assert_eq!(rt; Ticks::image(i64::MIN).0, i64::MIN);
}

// The words p and 2^32 - 1 mean 0 and 1, and (p - 1) squared is 1.
#[test]
fn residues_at_the_edge(rt: HostRuntime) {
    let prime = Residue(2147483647);
    let last = Residue(2147483646);
    let word = Residue(4294967295);
    assert_eq!(rt; last.product(last).0, 1);
    assert_eq!(rt; last.sum(Residue::one()).0, 0);
    assert_eq!(rt; prime.sum(Residue::zero()).0, 0);
    assert_eq!(rt; prime.product(word).0, 0);
    assert_eq!(rt; prime.opposite().0, 0);
    assert_eq!(rt; word.sum(word).0, 2);
    assert_eq!(rt; word.product(word).0, 1);
    assert_eq!(rt; word.opposite().0, 2147483646);
    assert_eq!(rt; Residue::image(-1).0, 2147483646);
    assert_eq!(rt; Residue::image(i64::MIN).0, 2147483645);
}

// A sum or product past 2^64 - 1 is 2^64 - 1.
#[test]
fn sizes_at_the_cap(rt: HostRuntime) {
    let largest = Size(u64::MAX);
    assert_eq!(rt; largest.sum(Size::one()).0, u64::MAX);
    assert_eq!(rt; largest.sum(Size::zero()).0, u64::MAX);
    assert_eq!(rt; largest.product(Size(2)).0, u64::MAX);
    assert_eq!(rt; largest.product(Size::zero()).0, 0);
    assert_eq!(rt; Size(4294967296).product(Size(4294967296)).0, u64::MAX);
    assert_eq!(rt;
        Size(4294967296).product(Size(4294967295)).0,
        18446744069414584320
    );
    assert_eq!(rt; largest.opposite().0, u64::MAX);
    assert_eq!(rt; Size::image(-1).0, 1);
    assert_eq!(rt; Size::image(i64::MIN).0, 9223372036854775808);
}

// x times x at 3, with tangent 1, has tangent 6; an image has tangent 0.
#[test]
fn pairs_by_parts(rt: HostRuntime) {
    let point = Pair {
        value: Ticks(3),
        tangent: Ticks::one(),
    };
    let squared = point.product(point);
    assert_eq!(rt; squared.value.0, 9);
    assert_eq!(rt; squared.tangent.0, 6);
    assert_eq!(rt; point.opposite().tangent.0, -1);
    let least: Pair<Residue> = Pair::image(i64::MIN);
    assert_eq!(rt; least.value.0, 2147483645);
    assert_eq!(rt; least.tangent.0, 0);
}

// The dot product of a row with itself has twice the product of two directions as its second derivative.
#[test]
fn dots_of_pairs_of_pairs(rt: HostRuntime) {
    let point = Pair {
        value: Pair {
            value: Size(9),
            tangent: Size(2),
        },
        tangent: Pair {
            value: Size(5),
            tangent: Size::zero(),
        },
    };
    let row = [point];
    let square = dot(&row, &row);
    assert_eq!(rt; square.value.value.0, 81);
    assert_eq!(rt; square.value.tangent.0, 36);
    assert_eq!(rt; square.tangent.value.0, 90);
    assert_eq!(rt; square.tangent.tangent.0, 20);
}

// The longer row counts as far as the shorter goes.
#[test]
fn dots_of_uneven_rows(rt: HostRuntime) {
    let short = [Ticks(2), Ticks(3)];
    let long = [Ticks(10), Ticks(100), Ticks(1000)];
    assert_eq!(rt; dot(&short, &long).0, 320);
    assert_eq!(rt; dot(&long, &short).0, 320);
    assert_eq!(rt; dot(&long, &[]).0, 0);
}

// A remainder, a cap, and a word: the same row in three kinds.
#[test]
fn dots_in_each_kind(rt: HostRuntime) {
    let last = Residue(2147483646);
    assert_eq!(rt; dot(&[last, last], &[last, last]).0, 2);
    assert_eq!(rt;
        dot(&[Size(u64::MAX), Size(1)], &[Size(2), Size(1)]).0,
        u64::MAX
    );
    assert_eq!(rt;
        dot(&[Ticks(i64::MAX), Ticks(1)], &[Ticks(2), Ticks(3)]).0,
        1
    );
}
